//! Shifting: room for further variables.

ghost use Rattle.std.specs.Prelude.{◌≡◌, ◌+◌, IfOk, map};
ghost use Rattle.qtt_term.specs.Substitution.{ren, lifts_ren, shift as shift_by};
ghost use Rattle.qtt_term.specs.Shift.{raised as raised_at, ren_branch};
ghost use Rattle.qtt_term.specs.View.{term, terms, case, delete, branches};

use crate::term::{Branch, Case, Delete, Term, TermError};
use std::alloc::Global;

impl Term {
    /// The term with every variable from `from` on raised by `by`.
    pub fn shift(&self, alloc: Global, from: u32, by: u32) -> Result<Term, TermError>
        ensures { IfOk result (λ t. term t ≡ ren (raised_at from by) (term self.now)) }
    {
        shifted(alloc, self, from, by)
    }
}

/// The index raised, below 2^31.
pub(crate) fn raised(index: u32, by: u32) -> Result<u32, TermError>
    ensures { IfOk result (λ i. i ≡ index + by) }
{
    match index.checked_add(by) {
        Some(i) if i < 0x8000_0000 => Ok(i),
        _ => Err(TermError::Memory),
    }
}

fn shifted_var(index: u32, from: u32, by: u32) -> Result<u32, TermError>
    ensures { IfOk result (λ i. i ≡ lifts_ren from (shift_by by) index) }
{
    if index < from {
        Ok(index)
    } else {
        raised(index, by)
    }
}

#[cycle(shifted)]
#[tactic(auto, using(crate::proofs::Moves::moves))]
fn shifted(alloc: Global, source: &Term, from: u32, by: u32) -> Result<Term, TermError>
    ensures { IfOk result (λ t. term t ≡ ren (lifts_ren from (shift_by by)) (term source.now)) }
{
    match source {
        Term::Var(i) => Ok(Term::Var(shifted_var(*i, from, by)?)),
        Term::Sort(level) => Ok(Term::Sort(*level)),
        Term::Pi(q, a, b) => {
            let a = shifted(alloc, a, from, by)?;
            let b = shifted(alloc, b, raised(from, 1)?, by)?;
            Term::pi(alloc, *q, a, b)
        }
        Term::Lam(q, a, b) => {
            let a = shifted(alloc, a, from, by)?;
            let b = shifted(alloc, b, raised(from, 1)?, by)?;
            Term::lam(alloc, *q, a, b)
        }
        Term::App(q, f, a) => {
            let f = shifted(alloc, f, from, by)?;
            let a = shifted(alloc, a, from, by)?;
            Term::app(alloc, *q, f, a)
        }
        Term::Fam(id, args) => Ok(Term::Fam(*id, shifted_all(alloc, args, from, by)?)),
        Term::Con(id, params, fields) => {
            let params = shifted_all(alloc, params, from, by)?;
            Ok(Term::Con(*id, params, shifted_all(alloc, fields, from, by)?))
        }
        Term::Case(case) => {
            let case = shifted_case(alloc, case, from, by)?;
            Ok(Term::Case(Box::new(alloc, case)?))
        }
        Term::Delete(delete) => {
            let delete = shifted_delete(alloc, delete, from, by)?;
            Ok(Term::Delete(Box::new(alloc, delete)?))
        }
        Term::Def(id) => Ok(Term::Def(*id)),
        Term::Lit(lit) => Ok(Term::Lit(lit.copy()?)),
        Term::IntTy => Ok(Term::IntTy),
        Term::StringTy => Ok(Term::StringTy),
        Term::HandleTy => Ok(Term::HandleTy),
        Term::IoTy(kind, a) => {
            let a = Box::new(alloc, shifted(alloc, a, from, by)?)?;
            Ok(Term::IoTy(*kind, a))
        }
        Term::Prim(prim, args) => Ok(Term::Prim(*prim, shifted_all(alloc, args, from, by)?)),
        Term::Act(kind, types, args) => {
            let types = shifted_all(alloc, types, from, by)?;
            Ok(Term::Act(*kind, types, shifted_all(alloc, args, from, by)?))
        }
        Term::Trap(a) => Ok(Term::Trap(Box::new(alloc, shifted(alloc, a, from, by)?)?)),
        Term::Tape(n) => Ok(Term::Tape(*n)),
    }
}

#[cycle(shifted)]
fn shifted_all(alloc: Global, sources: &[Term], from: u32, by: u32) -> Result<Vec<Term>, TermError>
    ensures { IfOk result (λ v. terms v.items ≡ map (ren (lifts_ren from (shift_by by)))
        (terms sources.now)) }
{
    let mut moved = Vec::with_capacity(alloc, sources.len())?;
    for source in sources {
        moved.push(shifted(alloc, source, from, by)?)?;
    }
    Ok(moved)
}

#[cycle(shifted)]
#[tactic(auto, using(crate::proofs::Moves::moves))]
fn shifted_branches(
    alloc: Global,
    sources: &[Branch],
    from: u32,
    by: u32,
) -> Result<Vec<Branch>, TermError>
    ensures { IfOk result (λ v. branches v.items ≡ map
        (ren_branch (lifts_ren from (shift_by by))) (branches sources.now)) }
{
    let mut moved = Vec::with_capacity(alloc, sources.len())?;
    for source in sources {
        let inner = raised(from, source.fields)?;
        moved.push(Branch {
            fields: source.fields,
            body: shifted(alloc, &source.body, inner, by)?,
        })?;
    }
    Ok(moved)
}

#[cycle(shifted)]
#[tactic(auto, using(crate::proofs::Moves::moves))]
fn shifted_case(alloc: Global, source: &Case, from: u32, by: u32) -> Result<Case, TermError>
    ensures { IfOk result (λ c. case c ≡ ren (lifts_ren from (shift_by by)) (case source.now)) }
{
    let inner = raised(from, raised(source.indices, 1)?)?;
    Ok(Case {
        mult: source.mult,
        family: source.family,
        params: shifted_all(alloc, &source.params, from, by)?,
        indices: source.indices,
        motive: shifted(alloc, &source.motive, inner, by)?,
        branches: shifted_branches(alloc, &source.branches, from, by)?,
        scrutinee: shifted(alloc, &source.scrutinee, from, by)?,
    })
}

#[cycle(shifted)]
#[tactic(auto, using(crate::proofs::Moves::moves))]
fn shifted_delete(alloc: Global, source: &Delete, from: u32, by: u32) -> Result<Delete, TermError>
    ensures { IfOk result (λ d. delete d ≡ ren (lifts_ren from (shift_by by)) (delete source.now)) }
{
    Ok(Delete {
        mult: source.mult,
        ty: shifted(alloc, &source.ty, from, by)?,
        point: shifted(alloc, &source.point, from, by)?,
        motive: shifted(alloc, &source.motive, raised(from, 1)?, by)?,
        branch: shifted(alloc, &source.branch, from, by)?,
        scrutinee: shifted(alloc, &source.scrutinee, from, by)?,
    })
}
