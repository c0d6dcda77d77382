//! The names with which terms are printed: those of an environment.

ghost use Rattle.std.specs.Prelude.{◌≡◌, OnOk};
ghost use Rattle.qtt_term.specs.Entries.{entries};
ghost use Rattle.qtt_core_print.specs.Names.{constructor_name, definition_name, family_name, told, unqualified};
ghost use Rattle.qtt_core_print.specs.Writing.{Adds};

use crate::words::put;
use qtt_base::{GlobalId, MemoryError, Name};
use qtt_term::Globals;

/// What is printed for what the names don't have.
const BLANK: &[u8] = b"_";

/// A name of Prim alone, another one with its module.
fn told_name(id: GlobalId, name: &Name) -> &[u8]
    ensures { result.now ≡ told id name.now }
{
    let bytes = name.as_str().as_bytes();
    if id.module.0 == 0 {
        last_part(bytes)
    } else {
        bytes
    }
}

/// What stands behind the last dot.
pub fn last_part(name: &[u8]) -> &[u8]
    ensures { result.now ≡ unqualified name.now }
{
    let mut from = 0;
    for (place, byte) in name.iter().enumerate() {
        if *byte == b'.' {
            from = place + 1;
        }
    }
    &name[from..]
}

#[tactic(auto, unfolding(crate::specs::Names::family_name))]
pub fn put_family(out: &mut Vec<u8>, names: &Globals, id: GlobalId) -> Result<(), MemoryError>
    ensures { OnOk result (Adds out.old out.new (family_name (entries names.now) id)) }
{
    put(
        out,
        match names.family(id) {
            Some(family) => told_name(family.id, &family.name),
            None => BLANK,
        },
    )
}

#[tactic(auto, unfolding(crate::specs::Names::definition_name))]
pub fn put_definition(out: &mut Vec<u8>, names: &Globals, id: GlobalId) -> Result<(), MemoryError>
    ensures { OnOk result (Adds out.old out.new (definition_name (entries names.now) id)) }
{
    put(
        out,
        match names.definition(id) {
            Some(definition) => told_name(definition.id, &definition.name),
            None => BLANK,
        },
    )
}

/// The constructor at this place of its family.
#[tactic(auto, unfolding(crate::specs::Names::constructor_name))]
pub fn put_constructor(
    out: &mut Vec<u8>,
    names: &Globals,
    family: GlobalId,
    place: usize,
) -> Result<(), MemoryError>
    ensures { OnOk result (Adds out.old out.new
        (constructor_name (entries names.now) family place)) }
{
    let Some(family) = names.family(family) else {
        return put(out, BLANK);
    };
    put(
        out,
        match family.constructors.get(place) {
            Some(constructor) => told_name(constructor.id, &constructor.name),
            None => BLANK,
        },
    )
}
