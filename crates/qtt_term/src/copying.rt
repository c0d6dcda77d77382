//! Copies of terms.

ghost use Rattle.std.specs.Prelude.{◌≡◌, IfOk};
ghost use Rattle.qtt_term.specs.View.{term, terms, case, delete, branches};

use crate::term::{Branch, Case, Delete, Term, TermError};
use std::alloc::Global;

impl Term {
    /// A term that stands for the same.
    pub fn copy(&self, alloc: Global) -> Result<Term, TermError>
        ensures { IfOk result (λ t. term t ≡ term self.now) }
    {
        copied(alloc, self)
    }
}

#[cycle(copied)]
fn copied(alloc: Global, source: &Term) -> Result<Term, TermError>
    ensures { IfOk result (λ t. term t ≡ term source.now) }
{
    match source {
        Term::Var(i) => Ok(Term::Var(*i)),
        Term::Sort(level) => Ok(Term::Sort(*level)),
        Term::Pi(q, a, b) => {
            let a = Box::new(alloc, copied(alloc, a)?)?;
            let b = Box::new(alloc, copied(alloc, b)?)?;
            Ok(Term::Pi(*q, a, b))
        }
        Term::Lam(q, a, b) => {
            let a = Box::new(alloc, copied(alloc, a)?)?;
            let b = Box::new(alloc, copied(alloc, b)?)?;
            Ok(Term::Lam(*q, a, b))
        }
        Term::App(q, f, a) => {
            let f = Box::new(alloc, copied(alloc, f)?)?;
            let a = Box::new(alloc, copied(alloc, a)?)?;
            Ok(Term::App(*q, f, a))
        }
        Term::Fam(id, args) => Ok(Term::Fam(*id, copy_all(alloc, args)?)),
        Term::Con(id, params, fields) => {
            let params = copy_all(alloc, params)?;
            Ok(Term::Con(*id, params, copy_all(alloc, fields)?))
        }
        Term::Case(case) => Ok(Term::Case(Box::new(alloc, copy_case(alloc, case)?)?)),
        Term::Delete(delete) => Ok(Term::Delete(Box::new(alloc, copy_delete(alloc, delete)?)?)),
        Term::Def(id) => Ok(Term::Def(*id)),
        Term::Lit(lit) => Ok(Term::Lit(lit.copy()?)),
        Term::IntTy => Ok(Term::IntTy),
        Term::StringTy => Ok(Term::StringTy),
        Term::HandleTy => Ok(Term::HandleTy),
        Term::IoTy(kind, a) => Ok(Term::IoTy(*kind, Box::new(alloc, copied(alloc, a)?)?)),
        Term::Prim(prim, args) => Ok(Term::Prim(*prim, copy_all(alloc, args)?)),
        Term::Act(kind, types, args) => {
            let types = copy_all(alloc, types)?;
            Ok(Term::Act(*kind, types, copy_all(alloc, args)?))
        }
        Term::Trap(a) => Ok(Term::Trap(Box::new(alloc, copied(alloc, a)?)?)),
        Term::Tape(n) => Ok(Term::Tape(*n)),
    }
}

/// Copies of terms, in order.
#[cycle(copied)]
pub fn copy_all(alloc: Global, sources: &[Term]) -> Result<Vec<Term>, TermError>
    ensures { IfOk result (λ v. terms v.items ≡ terms sources.now) }
{
    let mut copies = Vec::with_capacity(alloc, sources.len())?;
    for source in sources {
        copies.push(copied(alloc, source)?)?;
    }
    Ok(copies)
}

#[cycle(copied)]
fn copy_branches(alloc: Global, sources: &[Branch]) -> Result<Vec<Branch>, TermError>
    ensures { IfOk result (λ v. branches v.items ≡ branches sources.now) }
{
    let mut copies = Vec::with_capacity(alloc, sources.len())?;
    for source in sources {
        copies.push(Branch {
            fields: source.fields,
            body: copied(alloc, &source.body)?,
        })?;
    }
    Ok(copies)
}

#[cycle(copied)]
fn copy_case(alloc: Global, source: &Case) -> Result<Case, TermError>
    ensures { IfOk result (λ c. case c ≡ case source.now) }
{
    Ok(Case {
        mult: source.mult,
        family: source.family,
        params: copy_all(alloc, &source.params)?,
        indices: source.indices,
        motive: copied(alloc, &source.motive)?,
        branches: copy_branches(alloc, &source.branches)?,
        scrutinee: copied(alloc, &source.scrutinee)?,
    })
}

#[cycle(copied)]
fn copy_delete(alloc: Global, source: &Delete) -> Result<Delete, TermError>
    ensures { IfOk result (λ d. delete d ≡ delete source.now) }
{
    Ok(Delete {
        mult: source.mult,
        ty: copied(alloc, &source.ty)?,
        point: copied(alloc, &source.point)?,
        motive: copied(alloc, &source.motive)?,
        branch: copied(alloc, &source.branch)?,
        scrutinee: copied(alloc, &source.scrutinee)?,
    })
}
