//! Variables that are live at a node, and those that a split binds again.

ghost use Rattle.std.specs.Prelude.{◌≡◌, IfOk, map};
ghost use Rattle.qtt_term.specs.View.{term};
ghost use Rattle.qtt_unify.specs.Targets.{is_linear as linear};
ghost use Rattle.qtt_unify.specs.View.{binders};
ghost use Rattle.qtt_split.specs.Branch.{is_among as among, mentions_some as mentions_one, reverted as binds_again};
ghost use Rattle.qtt_split.specs.Seen.{live as live_at};
ghost use Rattle.qtt_split.specs.Sights.{sights_of};
ghost use Rattle.qtt_split.specs.Reverting.{goes_along};

use crate::context::{mult_at, type_at};
use crate::mentions::mentions;
use crate::sights::{Seen, any_shows};
use qtt_base::MemoryError;
use qtt_term::Term;
use qtt_usage::mult::Mult;
use std::alloc::Global;

/// The live variables of a context of so many, in context order.
pub fn live(alloc: Global, count: u32, seen: &[Seen]) -> Result<Vec<u32>, MemoryError>
    ensures { IfOk result (λ v. v.items ≡ live_at count (sights_of seen.now)) }
{
    let mut live = Vec::new(alloc);
    for variable in (0..count).rev() {
        if any_shows(seen, variable) {
            live.push(variable)?;
        }
    }
    Ok(live)
}

fn is_among(variable: u32, variables: &[u32]) -> bool
    ensures { result ≡ among variable variables.now }
{
    for other in variables {
        if variable == *other {
            return true;
        }
    }
    false
}

/// Whether a term mentions one of these variables.
pub fn mentions_some(variables: &[u32], t: &Term) -> Result<bool, MemoryError>
    ensures { IfOk result (λ b. b ≡ mentions_one variables.now (term t.now)) }
{
    for variable in variables {
        if mentions(t, u64::from(*variable))? {
            return Ok(true);
        }
    }
    Ok(false)
}

pub fn is_linear(mult: Mult) -> bool
    ensures { result ≡ linear mult }
{
    match mult {
        Mult::One => true,
        _ => false,
    }
}

/// Whether a split binds a variable again: it does not stay, and it is linear, or its type
/// mentions one that is touched.
fn is_reverted(
    alloc: Global,
    context: &[(Mult, Term)],
    stay: &[u32],
    touched: &[u32],
    variable: u32,
) -> Result<bool, MemoryError>
    ensures { IfOk result
        (λ b. b ≡ goes_along (binders context.now) stay.now touched.now variable) }
{
    if is_among(variable, stay) {
        return Ok(false);
    }
    if is_linear(mult_at(context, variable)) {
        return Ok(true);
    }
    mentions_some(touched, &type_at(alloc, context, variable)?)
}

/// The variables that a split binds again, among these in context order. Those that are bound
/// again are touched too.
pub fn reverted(
    alloc: Global,
    context: &[(Mult, Term)],
    stay: &[u32],
    touched: &[u32],
    variables: &[u32],
) -> Result<Vec<(Mult, u32)>, MemoryError>
    ensures { IfOk result
        (λ rs. rs.items ≡ binds_again (binders context.now) stay.now touched.now
        variables.now) }
{
    let mut changed = touched.to_vec(alloc)?;
    let mut found = Vec::new(alloc);
    for variable in variables {
        if is_reverted(alloc, context, stay, &changed, *variable)? {
            found.push((mult_at(context, *variable), *variable))?;
            changed.push(*variable)?;
        }
    }
    Ok(found)
}

/// The variables among bound ones.
pub fn variables_in(alloc: Global, bound: &[(Mult, u32)]) -> Result<Vec<u32>, MemoryError>
    ensures { IfOk result (λ v. v.items ≡ map (λ b. b.1) bound.now) }
{
    let mut variables = Vec::with_capacity(alloc, bound.len())?;
    for binder in bound {
        variables.push(binder.1)?;
    }
    Ok(variables)
}
