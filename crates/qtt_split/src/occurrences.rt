//! How often a variable occurs in a term.

ghost use Rattle.std.specs.Prelude.{◌≡◌, ◌+◌, [], IfOk, map};
ghost use Rattle.qtt_term.specs.Reading.{occurrences as occurrences_of, all_occurrences};
ghost use Rattle.qtt_term.specs.View.{term, terms, case, delete, branches, side_by_side};

use qtt_base::MemoryError;
use qtt_term::{Branch, Case, Delete, Term};
/// The sum of two numbers. One of 2^64 or more wants memory.
fn sum(one: u64, other: u64) -> Result<u64, MemoryError>
    ensures { IfOk result (λ n. n ≡ one + other) }
{
    match one.checked_add(other) {
        Some(sum) => Ok(sum),
        None => Err(MemoryError),
    }
}

/// How often a variable occurs in a term.
#[cycle(occurrences)]
#[tactic(auto, using(crate::proofs::Summed::summing))]
pub fn occurrences(source: &Term, variable: u64) -> Result<u64, MemoryError>
    ensures { IfOk result (λ n. n ≡ occurrences_of variable (term source.now)) }
{
    match source {
        Term::Var(index) => Ok(u64::from(u64::from(*index) == variable)),
        Term::Pi(_, domain, inner) | Term::Lam(_, domain, inner) => {
            let outside = occurrences(domain, variable)?;
            let inside = occurrences(inner, sum(1, variable)?)?;
            sum(outside, inside)
        }
        Term::App(_, function, argument) => {
            let first = occurrences(function, variable)?;
            let then = occurrences(argument, variable)?;
            sum(first, then)
        }
        Term::Fam(_, args) | Term::Prim(_, args) => occurrences_in(args, variable),
        Term::Con(_, front, back) | Term::Act(_, front, back) => {
            let first = occurrences_in(front, variable)?;
            let then = occurrences_in(back, variable)?;
            sum(first, then)
        }
        Term::Case(case) => occurrences_in_case(case, variable),
        Term::Delete(delete) => occurrences_in_delete(delete, variable),
        Term::IoTy(_, of) | Term::Trap(of) => occurrences(of, variable),
        _ => Ok(0),
    }
}

/// How often a variable occurs in terms side by side.
#[cycle(occurrences)]
#[tactic(auto, using(crate::proofs::Summed::summing))]
pub fn occurrences_in(sources: &[Term], variable: u64) -> Result<u64, MemoryError>
    ensures { IfOk result
        (λ n. n ≡ all_occurrences [] variable (side_by_side (terms sources.now))) }
{
    let mut count = 0;
    for source in sources {
        count = sum(count, occurrences(source, variable)?)?;
    }
    Ok(count)
}

#[cycle(occurrences)]
#[tactic(auto, using(crate::proofs::Summed::summing))]
fn occurrences_in_branches(sources: &[Branch], variable: u64) -> Result<u64, MemoryError>
    ensures { IfOk result
        (λ n. n ≡ all_occurrences (map (λ b. b.0) (branches sources.now)) variable
        (side_by_side (map (λ b. b.1) (branches sources.now)))) }
{
    let mut count = 0;
    for source in sources {
        let inside = sum(u64::from(source.fields), variable)?;
        count = sum(count, occurrences(&source.body, inside)?)?;
    }
    Ok(count)
}

#[cycle(occurrences)]
#[tactic(auto, using(crate::proofs::Summed::summing))]
fn occurrences_in_case(source: &Case, variable: u64) -> Result<u64, MemoryError>
    ensures { IfOk result (λ n. n ≡ occurrences_of variable (case source.now)) }
{
    let params = occurrences_in(&source.params, variable)?;
    let inside = sum(u64::from(source.indices) + 1, variable)?;
    let motive = occurrences(&source.motive, inside)?;
    let branches = occurrences_in_branches(&source.branches, variable)?;
    let scrutinee = occurrences(&source.scrutinee, variable)?;
    sum(sum(sum(params, motive)?, branches)?, scrutinee)
}

#[cycle(occurrences)]
#[tactic(auto, using(crate::proofs::Summed::summing))]
fn occurrences_in_delete(source: &Delete, variable: u64) -> Result<u64, MemoryError>
    ensures { IfOk result (λ n. n ≡ occurrences_of variable (delete source.now)) }
{
    let ty = occurrences(&source.ty, variable)?;
    let point = occurrences(&source.point, variable)?;
    let motive = occurrences(&source.motive, sum(1, variable)?)?;
    let branch = occurrences(&source.branch, variable)?;
    let scrutinee = occurrences(&source.scrutinee, variable)?;
    sum(sum(sum(sum(ty, point)?, motive)?, branch)?, scrutinee)
}
