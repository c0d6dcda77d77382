//! Simultaneous substitution.

ghost use Rattle.std.specs.Prelude.{◌≡◌, IfOk, map};
ghost use Rattle.qtt_term.specs.Substitution.{sub, lifts};
ghost use Rattle.qtt_term.specs.Shift.{values_in, values_or, signature_values, term_beyond, sub_branch};
ghost use Rattle.qtt_term.specs.View.{term, terms, case, delete, branches};

use crate::shifting::raised;
use crate::term::{Branch, Case, Delete, Term, TermError};
use std::alloc::Global;

impl Term {
    /// The term with values for its newest variables, the last of them for variable 0; the other
    /// variables are lowered.
    pub fn subst(&self, alloc: Global, values: &[Term]) -> Result<Term, TermError>
        ensures { IfOk result (λ t. term t ≡ sub (values_in (terms values.now)) (term self.now)) }
    {
        substituted(alloc, self, 0, values, Beyond::Kept)
    }

    /// A part of a signature with values for all variables that the signature binds, the last of
    /// them for variable 0.
    pub fn fill(&self, alloc: Global, values: &[Term]) -> Result<Term, TermError>
        ensures { IfOk result (λ t. term t ≡ sub (signature_values (terms values.now))
            (term self.now)) }
    {
        substituted(alloc, self, 0, values, Beyond::Unbound)
    }
}

/// What stands for the variables beyond the values.
#[derive(Clone, Copy, Debug, PartialEq, Eq)]
pub(crate) enum Beyond {
    /// The variable, lowered.
    Kept,
    /// `Type`: a signature binds no such variable.
    Unbound,
}

fn term_beyond(beyond: Beyond, index: u32) -> Term
    ensures { term result ≡ term_beyond beyond index }
{
    match beyond {
        Beyond::Kept => Term::Var(index),
        Beyond::Unbound => Term::Sort(0),
    }
}

fn substituted_var(
    alloc: Global,
    index: u32,
    depth: u32,
    values: &[Term],
    beyond: Beyond,
) -> Result<Term, TermError>
    ensures { IfOk result (λ t. term t ≡ lifts depth (values_or beyond (terms values.now)) index) }
{
    if index < depth {
        return Ok(Term::Var(index));
    }
    let place = (index - depth) as usize;
    if place < values.len() {
        values[values.len() - 1 - place].shift(alloc, 0, depth)
    } else {
        Ok(term_beyond(beyond, index - values.len() as u32))
    }
}

#[cycle(substituted)]
#[tactic(auto, using(crate::proofs::Moves::moves))]
fn substituted(
    alloc: Global,
    source: &Term,
    depth: u32,
    values: &[Term],
    beyond: Beyond,
) -> Result<Term, TermError>
    ensures { IfOk result (λ t. term t ≡ sub (lifts depth (values_or beyond (terms values.now)))
        (term source.now)) }
{
    match source {
        Term::Var(i) => substituted_var(alloc, *i, depth, values, beyond),
        Term::Sort(level) => Ok(Term::Sort(*level)),
        Term::Pi(q, a, b) => {
            let a = substituted(alloc, a, depth, values, beyond)?;
            let b = substituted(alloc, b, raised(depth, 1)?, values, beyond)?;
            Term::pi(alloc, *q, a, b)
        }
        Term::Lam(q, a, b) => {
            let a = substituted(alloc, a, depth, values, beyond)?;
            let b = substituted(alloc, b, raised(depth, 1)?, values, beyond)?;
            Term::lam(alloc, *q, a, b)
        }
        Term::App(q, f, a) => {
            let f = substituted(alloc, f, depth, values, beyond)?;
            let a = substituted(alloc, a, depth, values, beyond)?;
            Term::app(alloc, *q, f, a)
        }
        Term::Fam(id, args) => Ok(Term::Fam(
            *id,
            substituted_all(alloc, args, depth, values, beyond)?,
        )),
        Term::Con(id, params, fields) => {
            let params = substituted_all(alloc, params, depth, values, beyond)?;
            Ok(Term::Con(
                *id,
                params,
                substituted_all(alloc, fields, depth, values, beyond)?,
            ))
        }
        Term::Case(case) => {
            let case = substituted_case(alloc, case, depth, values, beyond)?;
            Ok(Term::Case(Box::new(alloc, case)?))
        }
        Term::Delete(delete) => {
            let delete = substituted_delete(alloc, delete, depth, values, beyond)?;
            Ok(Term::Delete(Box::new(alloc, delete)?))
        }
        Term::Def(id) => Ok(Term::Def(*id)),
        Term::Lit(lit) => Ok(Term::Lit(lit.copy()?)),
        Term::IntTy => Ok(Term::IntTy),
        Term::StringTy => Ok(Term::StringTy),
        Term::HandleTy => Ok(Term::HandleTy),
        Term::IoTy(kind, a) => {
            let a = Box::new(alloc, substituted(alloc, a, depth, values, beyond)?)?;
            Ok(Term::IoTy(*kind, a))
        }
        Term::Prim(prim, args) => Ok(Term::Prim(
            *prim,
            substituted_all(alloc, args, depth, values, beyond)?,
        )),
        Term::Act(kind, types, args) => {
            let types = substituted_all(alloc, types, depth, values, beyond)?;
            Ok(Term::Act(
                *kind,
                types,
                substituted_all(alloc, args, depth, values, beyond)?,
            ))
        }
        Term::Trap(a) => Ok(Term::Trap(Box::new(
            alloc,
            substituted(alloc, a, depth, values, beyond)?,
        )?)),
        Term::Tape(n) => Ok(Term::Tape(*n)),
    }
}

#[cycle(substituted)]
fn substituted_all(
    alloc: Global,
    sources: &[Term],
    depth: u32,
    values: &[Term],
    beyond: Beyond,
) -> Result<Vec<Term>, TermError>
    ensures { IfOk result (λ v. terms v.items ≡ map
        (sub (lifts depth (values_or beyond (terms values.now)))) (terms sources.now)) }
{
    let mut moved = Vec::with_capacity(alloc, sources.len())?;
    for source in sources {
        moved.push(substituted(alloc, source, depth, values, beyond)?)?;
    }
    Ok(moved)
}

#[cycle(substituted)]
#[tactic(auto, using(crate::proofs::Moves::moves))]
fn substituted_branches(
    alloc: Global,
    sources: &[Branch],
    depth: u32,
    values: &[Term],
    beyond: Beyond,
) -> Result<Vec<Branch>, TermError>
    ensures { IfOk result (λ v. branches v.items ≡ map
        (sub_branch (lifts depth (values_or beyond (terms values.now)))) (branches sources.now)) }
{
    let mut moved = Vec::with_capacity(alloc, sources.len())?;
    for source in sources {
        let inner = raised(depth, source.fields)?;
        moved.push(Branch {
            fields: source.fields,
            body: substituted(alloc, &source.body, inner, values, beyond)?,
        })?;
    }
    Ok(moved)
}

#[cycle(substituted)]
#[tactic(auto, using(crate::proofs::Moves::moves))]
fn substituted_case(
    alloc: Global,
    source: &Case,
    depth: u32,
    values: &[Term],
    beyond: Beyond,
) -> Result<Case, TermError>
    ensures { IfOk result (λ c. case c ≡ sub (lifts depth (values_or beyond (terms values.now)))
        (case source.now)) }
{
    let inner = raised(depth, raised(source.indices, 1)?)?;
    Ok(Case {
        mult: source.mult,
        family: source.family,
        params: substituted_all(alloc, &source.params, depth, values, beyond)?,
        indices: source.indices,
        motive: substituted(alloc, &source.motive, inner, values, beyond)?,
        branches: substituted_branches(alloc, &source.branches, depth, values, beyond)?,
        scrutinee: substituted(alloc, &source.scrutinee, depth, values, beyond)?,
    })
}

#[cycle(substituted)]
#[tactic(auto, using(crate::proofs::Moves::moves))]
fn substituted_delete(
    alloc: Global,
    source: &Delete,
    depth: u32,
    values: &[Term],
    beyond: Beyond,
) -> Result<Delete, TermError>
    ensures { IfOk result (λ d. delete d ≡ sub
        (lifts depth (values_or beyond (terms values.now))) (delete source.now)) }
{
    Ok(Delete {
        mult: source.mult,
        ty: substituted(alloc, &source.ty, depth, values, beyond)?,
        point: substituted(alloc, &source.point, depth, values, beyond)?,
        motive: substituted(alloc, &source.motive, raised(depth, 1)?, values, beyond)?,
        branch: substituted(alloc, &source.branch, depth, values, beyond)?,
        scrutinee: substituted(alloc, &source.scrutinee, depth, values, beyond)?,
    })
}
