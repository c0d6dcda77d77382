//! Vectors in the order of their elements' ids.

ghost use Rattle.std.specs.Prelude.{◌≡◌, ◌<◌, ◌≤◌, ◌+◌, None, IsTrue, IfOk, IfErr, vec_len, vec_capacity};
ghost use Rattle.std.specs.Option.{option_copied};
ghost use Rattle.qtt_term.specs.Keyed.{ascends, with_id, inserted, all_inserted, CanInsertAll, IsPlaceOf, IsGapFor};

use qtt_base::GlobalId;

/// What has an id.
pub(crate) trait Keyed {
    ghost use Rattle.qtt_base.specs.declared.place.GlobalId.{GlobalId};

    ghost key: { Self → GlobalId };

    fn id(&self) -> GlobalId
        ensures { result ≡ key self.now };
}

/// Where the element of this id is, or where one of this id would go.
pub(crate) fn search<T: Keyed>(items: &[T], id: GlobalId) -> Result<usize, usize>
    requires { IsTrue (ascends T.key items.now) }
    ensures found { IfOk result (IsPlaceOf T.key id items.now) }
    ensures absent { IfErr result (IsGapFor T.key id items.now) }
{
    items.binary_search_by_key(&id, |item| item.id())
}

/// The element of this id.
pub(crate) fn find<T: Keyed>(items: &[T], id: GlobalId) -> Option<&T>
    requires { IsTrue (ascends T.key items.now) }
    ensures { option_copied result ≡ with_id T.key id items.now }
{
    match search(items, id) {
        Ok(at) => Some(&items[at]),
        Err(_) => None,
    }
}

/// Puts an element where its id belongs. There is room for it.
pub(crate) fn place<T: Keyed + Drop>(items: &mut Vec<T>, item: T)
    requires room { vec_len items.old < vec_capacity items.old }
    requires ascend { IsTrue (ascends T.key items.old.items) }
    requires new_id { with_id T.key (T.key item) items.old.items ≡ None }
    ensures items { items.new.items ≡ inserted T.key item items.old.items }
    ensures len { vec_len items.new ≡ vec_len items.old + 1 }
    ensures capacity { vec_capacity items.old ≤ vec_capacity items.new }
{
    let at = match search(items, item.id()) {
        Ok(_) => unreachable!(),
        Err(at) => at,
    };
    match items.insert(at, item) {
        Ok(()) => {}
        Err(_) => unreachable!(),
    }
}

/// Puts each element where its id belongs. There is room for all.
pub(crate) fn place_all<T: Keyed + Drop>(items: &mut Vec<T>, more: Vec<T>)
    requires room { vec_len items.old + vec_len more ≤ vec_capacity items.old }
    requires ascend { IsTrue (ascends T.key items.old.items) }
    requires new_ids { CanInsertAll T.key more.items items.old.items }
    ensures { items.new.items ≡ all_inserted T.key more.items items.old.items }
{
    for item in more {
        place(items, item);
    }
}
