//! How often a variable occurs in a term.

ghost use Rattle.std.specs.Prelude.{◌≡◌, ◌+◌, [], IfOk, map};
ghost use Rattle.qtt_term.specs.Reading.{occurrences as occurrences_of, all_occurrences, mentions_newest as newest};
ghost use Rattle.qtt_term.specs.View.{term, terms, case, delete, branches, side_by_side};
ghost use Rattle.qtt_unify.specs.Frequency.{how_often, both, is_once, is_never};

use qtt_base::MemoryError;
use qtt_term::{Branch, Case, Delete, Term};

/// How often something occurs.
#[derive(Clone, Copy, Debug, PartialEq, Eq)]
pub enum Frequency {
    Never,
    Once,
    Often,
}

impl Frequency {
    /// Those in two parts together.
    pub fn and(self, more: Frequency) -> Frequency
        ensures { result ≡ both self more }
    {
        match (self, more) {
            (Frequency::Never, other) => other,
            (other, Frequency::Never) => other,
            _ => Frequency::Often,
        }
    }

    pub fn is_once(self) -> bool
        ensures { result ≡ is_once self }
    {
        match self {
            Frequency::Once => true,
            _ => false,
        }
    }

    pub fn is_never(self) -> bool
        ensures { result ≡ is_never self }
    {
        match self {
            Frequency::Never => true,
            _ => false,
        }
    }
}

/// A variable under so many binders more. One of 2^64 or more wants memory.
fn under(variable: u64, binders: u64) -> Result<u64, MemoryError>
    ensures { IfOk result (λ v. v ≡ binders + variable) }
{
    match variable.checked_add(binders) {
        Some(under) => Ok(under),
        None => Err(MemoryError),
    }
}

/// How often a variable occurs in a term.
#[cycle(occurrences)]
#[tactic(auto, using(crate::proofs::Counted::counting))]
pub fn occurrences(source: &Term, variable: u64) -> Result<Frequency, MemoryError>
    ensures { IfOk result (λ o. o ≡ how_often (occurrences_of variable (term source.now))) }
{
    match source {
        Term::Var(index) => {
            if u64::from(*index) == variable {
                Ok(Frequency::Once)
            } else {
                Ok(Frequency::Never)
            }
        }
        Term::Pi(_, domain, inner) | Term::Lam(_, domain, inner) => {
            let outside = occurrences(domain, variable)?;
            let inside = occurrences(inner, under(variable, 1)?)?;
            Ok(outside.and(inside))
        }
        Term::App(_, function, argument) => {
            let first = occurrences(function, variable)?;
            let then = occurrences(argument, variable)?;
            Ok(first.and(then))
        }
        Term::Fam(_, args) | Term::Prim(_, args) => occurrences_in(args, variable),
        Term::Con(_, front, back) | Term::Act(_, front, back) => {
            let first = occurrences_in(front, variable)?;
            let then = occurrences_in(back, variable)?;
            Ok(first.and(then))
        }
        Term::Case(case) => occurrences_in_case(case, variable),
        Term::Delete(delete) => occurrences_in_delete(delete, variable),
        Term::IoTy(_, of) | Term::Trap(of) => occurrences(of, variable),
        _ => Ok(Frequency::Never),
    }
}

/// How often a variable occurs in terms side by side.
#[cycle(occurrences)]
#[tactic(auto, using(crate::proofs::Counted::counting))]
pub fn occurrences_in(sources: &[Term], variable: u64) -> Result<Frequency, MemoryError>
    ensures { IfOk result
        (λ o. o ≡ how_often (all_occurrences [] variable (side_by_side (terms sources.now)))) }
{
    let mut found = Frequency::Never;
    for source in sources {
        found = found.and(occurrences(source, variable)?);
    }
    Ok(found)
}

#[cycle(occurrences)]
#[tactic(auto, using(crate::proofs::Counted::counting))]
fn occurrences_in_branches(sources: &[Branch], variable: u64) -> Result<Frequency, MemoryError>
    ensures { IfOk result
        (λ o. o ≡ how_often (all_occurrences (map (λ b. b.0) (branches sources.now)) variable
        (side_by_side (map (λ b. b.1) (branches sources.now))))) }
{
    let mut found = Frequency::Never;
    for source in sources {
        let inside = under(variable, u64::from(source.fields))?;
        found = found.and(occurrences(&source.body, inside)?);
    }
    Ok(found)
}

#[cycle(occurrences)]
#[tactic(auto, using(crate::proofs::Counted::counting))]
fn occurrences_in_case(source: &Case, variable: u64) -> Result<Frequency, MemoryError>
    ensures { IfOk result (λ o. o ≡ how_often (occurrences_of variable (case source.now))) }
{
    let params = occurrences_in(&source.params, variable)?;
    let inside = under(variable, u64::from(source.indices) + 1)?;
    let motive = occurrences(&source.motive, inside)?;
    let branches = occurrences_in_branches(&source.branches, variable)?;
    let scrutinee = occurrences(&source.scrutinee, variable)?;
    Ok(params.and(motive).and(branches).and(scrutinee))
}

#[cycle(occurrences)]
#[tactic(auto, using(crate::proofs::Counted::counting))]
fn occurrences_in_delete(source: &Delete, variable: u64) -> Result<Frequency, MemoryError>
    ensures { IfOk result (λ o. o ≡ how_often (occurrences_of variable (delete source.now))) }
{
    let ty = occurrences(&source.ty, variable)?;
    let point = occurrences(&source.point, variable)?;
    let motive = occurrences(&source.motive, under(variable, 1)?)?;
    let branch = occurrences(&source.branch, variable)?;
    let scrutinee = occurrences(&source.scrutinee, variable)?;
    Ok(ty.and(point).and(motive).and(branch).and(scrutinee))
}

/// Whether one of the newest `count` variables occurs in a term.
pub fn mentions_newest(source: &Term, count: usize) -> Result<bool, MemoryError>
    ensures { IfOk result (λ b. b ≡ newest count (term source.now)) }
{
    for variable in 0..count as u64 {
        if !occurrences(source, variable)?.is_never() {
            return Ok(true);
        }
    }
    Ok(false)
}
