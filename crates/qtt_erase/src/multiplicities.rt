//! The multiplicities of arguments and of fields.

ghost use Rattle.std.specs.Prelude.{◌≡◌, ◌≤◌, IfOk, map};
ghost use Rattle.qtt_term.specs.Signature.{prim_signature, act_signature, family_at};
ghost use Rattle.qtt_term.specs.Value.{mults, field_mults as mults_of_fields};
ghost use Rattle.qtt_term.specs.View.{action};
ghost use Rattle.qtt_term.specs.Telescopes.{tele};
ghost use Rattle.qtt_term.specs.Items.{constructor};
ghost use Rattle.qtt_term.specs.Globals.{env as env_of};
ghost use Rattle.qtt_erase.specs.Erasure.{field_slots, places as places_of};

use crate::scope::{Slot, field_slot};
use qtt_base::{GlobalId, MemoryError};
use qtt_prims::{ActKind, Primitive};
use qtt_term::Term;
use qtt_term::globals::Globals;
use qtt_term::items::Constructor;
use qtt_term::signatures::{action_signature, primitive_signature};
use qtt_usage::mult::Mult;
use std::alloc::Global;

/// Of a primitive's arguments.
pub fn prim_mults(alloc: Global, prim: Primitive) -> Result<Vec<Mult>, MemoryError>
    ensures { IfOk result (λ v. v.items ≡ mults (prim_signature prim).arguments) }
{
    let signature = primitive_signature(alloc, prim)?;
    tele_mults(alloc, &signature.arguments)
}

/// Of an action's type arguments and arguments.
pub fn act_mults(alloc: Global, kind: ActKind) -> Result<Vec<Mult>, MemoryError>
    ensures { IfOk result (λ v. v.items ≡ mults (act_signature (action kind)).arguments) }
{
    let signature = action_signature(alloc, kind)?;
    tele_mults(alloc, &signature.arguments)
}

/// Of a constructor's fields; none for a constructor that is not there.
#[tactic(auto, using(crate::proofs::Fields::found_fields))]
pub fn field_mults(
    alloc: Global,
    env: &Globals,
    family: GlobalId,
    place: usize,
) -> Result<Vec<Mult>, MemoryError>
    ensures { IfOk result (λ v. v.items ≡ mults_of_fields
        (family_at (env_of env.now) family).constructors place) }
{
    match env.family(family) {
        Some(family) => constructor_mults(alloc, &family.constructors, place),
        None => Ok(Vec::new(alloc)),
    }
}

#[tactic(auto, using(crate::proofs::Fields::found_fields))]
fn constructor_mults(
    alloc: Global,
    constructors: &[Constructor],
    place: usize,
) -> Result<Vec<Mult>, MemoryError>
    ensures { IfOk result (λ v. v.items ≡ mults_of_fields
        (map constructor constructors.now) place) }
{
    match constructors.get(place) {
        Some(constructor) => tele_mults(alloc, &constructor.fields),
        None => Ok(Vec::new(alloc)),
    }
}

#[tactic(auto, using(crate::proofs::Fields::found_fields))]
fn tele_mults(alloc: Global, fields: &[(Mult, Term)]) -> Result<Vec<Mult>, MemoryError>
    ensures { IfOk result (λ v. v.items ≡ mults (tele fields.now)) }
{
    let mut mults = Vec::with_capacity(alloc, fields.len())?;
    for field in fields {
        mults.push(field.0)?;
    }
    Ok(mults)
}

/// How many of a branch's fields are left, of a Case at the first multiplicity.
#[tactic(auto, using(crate::proofs::Components::none_left))]
pub fn places(mult: Mult, mults: &[Mult], fields: u32) -> u32
    ensures places { result ≡ places_of (field_slots mult mults.now fields) }
    ensures fits { result ≤ fields }
{
    match mults {
        [] => 0,
        [first, rest @ ..] => {
            if fields == 0 {
                return 0;
            }
            let others = places(mult, rest, fields - 1);
            match field_slot(mult, *first) {
                Slot::Gone => others,
                Slot::Blank | Slot::Filled => others + 1,
            }
        }
    }
}
