//! What a module gives to those that import it, by its text.

ghost use Rattle.std.specs.Prelude.{◌≡◌, ◌+◌, [], map, length, IfOk, OnOk};
ghost use Rattle.std.specs.List.{flat_map};
ghost use Rattle.qtt_syntax.specs.View.{con_of, item_of, module_of};
ghost use Rattle.qtt_names.specs.Scope.{constructor_name, declared, with_items};
ghost use Rattle.qtt_names.specs.Exports.{exports_of, sig_of};
ghost use Rattle.qtt_module.specs.Exported.{own_export, exports as exports_by_text};
ghost use Rattle.qtt_module.specs.Exported.{with_export, with_exports};

use indexmap::IndexMap;
use qtt_base::{GlobalId, MemoryError, ModuleId, Name};
use qtt_names::{Exports, Sig};
use qtt_syntax::{ConDecl, Item, ModuleText};
use std::alloc::Global;

/// What the module of this number gives to those that import it, where `sigs` are the signatures
/// of its items in the order of their numbers.
pub fn exports(
    alloc: Global,
    module: ModuleId,
    text: &ModuleText,
    sigs: Vec<Sig>,
) -> Result<Exports, MemoryError>
    ensures { IfOk result (λ e. exports_of e ≡
        exports_by_text «module» (module_of text.now) (map sig_of sigs.items)) }
{
    Ok(Exports {
        module,
        name: text.name.copy()?,
        items: exported_items(alloc, module, &text.items)?,
        sigs,
    })
}

/// The ids of a text's own items by their names.
#[tactic(auto, using(crate::proofs::Exporting::exporting))]
fn exported_items(
    alloc: Global,
    module: ModuleId,
    items: &[Item],
) -> Result<IndexMap<Name, GlobalId>, MemoryError>
    ensures { IfOk result (λ m. m.entries ≡
        map (own_export «module») (with_items [] 0 (flat_map declared (map item_of items.now)))) }
{
    let mut ids = IndexMap::new(alloc);
    let mut number = 0;
    for item in items {
        number = put_item(
            &mut ids,
            GlobalId {
                module,
                item: number,
            },
            item,
        )?;
    }
    Ok(ids)
}

/// Puts the names that an item declares, of which the first has this id, and answers the number
/// behind theirs.
#[tactic(auto, using(crate::proofs::Exporting::exporting))]
fn put_item(
    ids: &mut IndexMap<Name, GlobalId>,
    first: GlobalId,
    item: &Item,
) -> Result<u32, MemoryError>
    ensures entries { OnOk result
        (ids.new.entries ≡ with_exports ids.old.entries first.«module» first.item
        (declared (item_of item.now))) }
    ensures next { IfOk result (λ n. n ≡ first.item + length (declared (item_of item.now))) }
{
    match item {
        Item::Family(family) => {
            let next = put(ids, &family.name, first)?;
            put_constructors(
                ids,
                GlobalId {
                    module: first.module,
                    item: next,
                },
                &family.constructors,
            )
        }
        Item::Signature(signature) => put(ids, &signature.name, first),
        Item::Clause(_) => Ok(first.item),
    }
}

/// Puts constructors, of which the first has this id, and answers the number behind theirs.
#[tactic(auto, using(crate::proofs::Exporting::exporting))]
fn put_constructors(
    ids: &mut IndexMap<Name, GlobalId>,
    first: GlobalId,
    constructors: &[ConDecl],
) -> Result<u32, MemoryError>
    ensures entries { OnOk result
        (ids.new.entries ≡ with_exports ids.old.entries first.«module» first.item
        (map constructor_name (map con_of constructors.now))) }
    ensures next { IfOk result (λ n. n ≡ first.item + length constructors.now) }
{
    let mut number = first.item;
    for constructor in constructors {
        number = put(
            ids,
            &constructor.name,
            GlobalId {
                module: first.module,
                item: number,
            },
        )?;
    }
    Ok(number)
}

/// Puts a name behind those that are known, unless it is one of them, and answers the next
/// number.
#[tactic(auto, using(crate::proofs::Exporting::exporting))]
fn put(ids: &mut IndexMap<Name, GlobalId>, name: &Name, id: GlobalId) -> Result<u32, MemoryError>
    ensures entries { OnOk result (ids.new.entries ≡ with_export ids.old.entries name.now id) }
    ensures next { IfOk result (λ n. n ≡ id.item + 1) }
{
    let Some(next) = id.item.checked_add(1) else {
        return Err(MemoryError);
    };
    if ids.get(name).is_none() {
        ids.insert(name.copy()?, id)?;
    }
    Ok(next)
}
