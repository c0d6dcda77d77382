//! Names and ids of items.

ghost use Rattle.std.specs.Prelude.{◌≡◌, IfOk};
ghost use Rattle.qtt_term.specs.Term.{same_id as same_ids};
ghost use Rattle.qtt_module.specs.Families.{qualified as name_within, item_behind as id_behind};

use qtt_base::{GlobalId, MemoryError, Name, NameError};
use std::alloc::Global;

/// The name of an item of a module, as `Main.Nat`.
#[tactic(auto, using(crate::proofs::Named::short_within))]
pub fn qualified(alloc: Global, home: &Name, name: &Name) -> Result<Name, MemoryError>
    ensures { IfOk result (λ q. q ≡ name_within home.now name.now) }
{
    let mut text = String::from_str(alloc, home.as_str())?;
    text.push_str(".")?;
    text.push_str(name.as_str())?;
    match Name::new(alloc, text.as_str()) {
        Ok(name) => Ok(name),
        Err(NameError::Memory) => Err(MemoryError),
        Err(NameError::TooLong) => unreachable!(),
    }
}

pub fn same_id(one: GlobalId, other: GlobalId) -> bool
    ensures { result ≡ same_ids one other }
{
    one.module.0 == other.module.0 && one.item == other.item
}

/// The id of an item of the same module, so many items behind the one that follows this one.
pub fn item_behind(id: GlobalId, place: usize) -> Result<GlobalId, MemoryError>
    ensures { IfOk result (λ i. i ≡ id_behind id place) }
{
    let Ok(place) = u32::try_from(place) else {
        return Err(MemoryError);
    };
    let Some(before) = id.item.checked_add(place) else {
        return Err(MemoryError);
    };
    match before.checked_add(1) {
        Some(item) => Ok(GlobalId {
            module: id.module,
            item,
        }),
        None => Err(MemoryError),
    }
}
