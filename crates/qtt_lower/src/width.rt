//! How many instructions a term has.

ghost use Rattle.std.specs.Prelude.{◌≡◌, ◌+◌, IfOk};
ghost use Rattle.qtt_closure.specs.View.{flat_term, flat_terms, flat_branches};
ghost use Rattle.qtt_lower.specs.Lowering.{given_width, join_width, width as width_of};
ghost use Rattle.qtt_lower.specs.Lowered.{all_width, branches_places, branches_width, field_counts};
ghost use Rattle.qtt_lower.specs.View.{position as position_of};

use crate::position::Position;
use qtt_base::MemoryError;
use qtt_closure::{FlatBranch, FlatTerm};
use std::alloc::Global;

pub fn sum(a: usize, b: usize) -> Result<usize, MemoryError>
    ensures { IfOk result (λ n. n ≡ a + b) }
{
    a.checked_add(b).ok_or(MemoryError)
}

/// How many instructions push a value, and in tail position give it back.
fn given(position: Position) -> usize
    ensures { result ≡ given_width (position_of position) }
{
    match position {
        Position::Inner => 1,
        Position::Tail => 2,
    }
}

/// How many instructions follow a branch with so many fields, before so many other branches.
fn join(position: Position, fields: u32, others: &[FlatBranch]) -> usize
    ensures { result ≡ join_width (position_of position) fields
        (field_counts (flat_branches others.now)) }
{
    match position {
        Position::Tail => 0,
        Position::Inner => {
            let leaves = if fields == 0 { 0 } else { 1 };
            let jumps = if others.is_empty() { 0 } else { 1 };
            leaves + jumps
        }
    }
}

/// How many instructions a term has. Want of memory counts 2^64 of them too.
#[cycle(width)]
#[tactic(auto, using(crate::proofs::Lists::widths_of_forms))]
pub fn width(position: Position, source: &FlatTerm) -> Result<usize, MemoryError>
    ensures { IfOk result (λ n. n ≡ width_of (position_of position) (flat_term source.now)) }
{
    match source {
        FlatTerm::Var(_) | FlatTerm::Lit(_) | FlatTerm::Ty => Ok(given(position)),
        FlatTerm::Closure(_, parts) => sum(all(parts)?, given(position)),
        FlatTerm::Con(_, parts) => sum(all(parts)?, given(position)),
        FlatTerm::Prim(_, parts) => sum(all(parts)?, given(position)),
        FlatTerm::Act(_, parts) => sum(all(parts)?, given(position)),
        FlatTerm::App(f, a) => {
            let components = sum(width(Position::Inner, f)?, width(Position::Inner, a)?)?;
            sum(components, 1)
        }
        FlatTerm::Force(f) => sum(width(Position::Inner, f)?, 1),
        FlatTerm::Case(scrutinee, branches) => {
            let before = sum(width(Position::Inner, scrutinee)?, 1)?;
            sum(before, all_branches(position, branches)?)
        }
        FlatTerm::Def(_) | FlatTerm::Trap | FlatTerm::Tape(_) => Ok(1),
    }
}

#[cycle(width)]
#[tactic(auto, using(crate::proofs::Lists::widths_of_forms))]
fn all(sources: &[FlatTerm]) -> Result<usize, MemoryError>
    ensures { IfOk result (λ n. n ≡ all_width (flat_terms sources.now)) }
{
    let mut total = 0;
    for source in sources {
        total = sum(total, width(Position::Inner, source)?)?;
    }
    Ok(total)
}

/// Of branches and what follows each.
#[cycle(width)]
#[tactic(auto, using(crate::proofs::Lists::widths_of_forms))]
fn all_branches(position: Position, branches: &[FlatBranch]) -> Result<usize, MemoryError>
    ensures { IfOk result (λ n. n ≡ branches_width (position_of position)
        (flat_branches branches.now)) }
{
    let mut total = 0;
    for (k, branch) in branches.iter().enumerate() {
        let own = width(position, &branch.body)?;
        let behind = join(position, branch.fields, &branches[k + 1..]);
        total = sum(total, sum(own, behind)?)?;
    }
    Ok(total)
}

/// The places of branches, the first of them at that place, and the place behind them.
#[tactic(auto, using(crate::proofs::Lists::widths_of_forms))]
pub fn branch_places(
    alloc: Global,
    position: Position,
    first: usize,
    branches: &[FlatBranch],
) -> Result<(Vec<u32>, u32), MemoryError>
    ensures places { IfOk result
        (λ r. r.0.items ≡ branches_places (position_of position) first
        (flat_branches branches.now)) }
    ensures end { IfOk result
        (λ r. r.1 ≡ first + branches_width (position_of position) (flat_branches branches.now)) }
{
    let mut places = Vec::with_capacity(alloc, branches.len())?;
    let mut place = first;
    for (k, branch) in branches.iter().enumerate() {
        places.push(u32::try_from(place).map_err(|_| MemoryError)?)?;
        let own = width(position, &branch.body)?;
        let behind = join(position, branch.fields, &branches[k + 1..]);
        place = sum(place, sum(own, behind)?)?;
    }
    let end = u32::try_from(place).map_err(|_| MemoryError)?;
    Ok((places, end))
}
