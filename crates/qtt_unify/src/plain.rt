//! Plain families.

ghost use Rattle.std.specs.Prelude.{◌≡◌, IfOk, map};
ghost use Rattle.qtt_term.specs.Globals.{env as env_of};
ghost use Rattle.qtt_term.specs.Items.{field};
ghost use Rattle.qtt_term.specs.Reading.{is_plain as plain, plain_fields};
ghost use Rattle.qtt_term.specs.Signature.{family_at};

use crate::occurrences::mentions_newest;
use qtt_base::{GlobalId, MemoryError};
use qtt_term::{Globals, Term};
use qtt_usage::mult::Mult;

/// Whether a family has no indices, and no field's type mentions an earlier field.
pub fn is_plain(env: &Globals, id: GlobalId) -> Result<bool, MemoryError>
    ensures { IfOk result (λ b. b ≡ plain (family_at (env_of env.now) id)) }
{
    let Some(family) = env.family(id) else {
        return Ok(true);
    };
    if !family.indices.is_empty() {
        return Ok(false);
    }
    for constructor in &family.constructors {
        if !are_plain(&constructor.fields)? {
            return Ok(false);
        }
    }
    Ok(true)
}

/// Whether no field's type mentions an earlier field.
fn are_plain(fields: &[(Mult, Term)]) -> Result<bool, MemoryError>
    ensures { IfOk result (λ b. b ≡ plain_fields 0 (map field fields.now)) }
{
    for (place, (_mult, ty)) in fields.iter().enumerate() {
        if mentions_newest(ty, place)? {
            return Ok(false);
        }
    }
    Ok(true)
}
