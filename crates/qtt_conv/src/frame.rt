//! What stands around the component whose head a term takes.

ghost use Rattle.std.specs.Prelude.{◌≡◌, ◌<◌, map, length, IfOk, IfSome, MatchOption};
ghost use Rattle.qtt_term.specs.declared.term.Term.TheVariants as code_term;
ghost use Rattle.qtt_term.specs.declared.term.Case.{out-Case};
ghost use Rattle.qtt_term.specs.Term.{node, ◌▸◌, ◌+++◌};
ghost use Rattle.qtt_term.specs.Contraction.{literal_term};
ghost use Rattle.qtt_term.specs.View.{term, terms, case, delete, branches, side_by_side};
ghost use Rattle.qtt_conv.specs.Frames.{plug, literal_terms, case_form, case_parts, delete_form, delete_parts, Fits, IsFocus, starts_with_no_literal};

use qtt_base::{GlobalId, MemoryError};
use qtt_prims::{Lit, Primitive};
use qtt_term::copying::copy_all;
use qtt_term::{Branch, Case, Delete, Term};
use qtt_usage::mult::Mult;
use std::alloc::Global;

/// A term without the component whose head it takes.
#[derive(Drop)]
pub enum Frame {
    /// An application without its function.
    Argument(Mult, Term),
    Case(Box<Branching>),
    Delete(Box<Deletion>),
    /// A primitive without an argument: the literals before it, and the arguments behind it.
    Prim(Primitive, Vec<Lit>, Vec<Term>),
}

/// A Case without its scrutinee.
#[derive(Drop)]
pub struct Branching {
    pub mult: Mult,
    pub family: GlobalId,
    pub params: Vec<Term>,
    pub indices: u32,
    pub motive: Term,
    pub branches: Vec<Branch>,
}

/// A Delete without its scrutinee.
#[derive(Drop)]
pub struct Deletion {
    pub mult: Mult,
    pub ty: Term,
    pub point: Term,
    pub motive: Term,
    pub branch: Term,
}

impl Frame {
    /// The term with a component in the frame's place.
    pub fn plugged(self, alloc: Global, inner: Term) -> Result<Term, MemoryError>
        ensures { IfOk result (λ t. term t ≡ plug self (term inner)) }
    {
        match self {
            Frame::Argument(mult, argument) => Ok(Term::app(alloc, mult, inner, argument)?),
            Frame::Case(branching) => {
                let case = Box::into_inner(branching).with_scrutinee(inner);
                Ok(Term::Case(Box::new(alloc, case)?))
            }
            Frame::Delete(deletion) => {
                let delete = Box::into_inner(deletion).with_scrutinee(inner);
                Ok(Term::Delete(Box::new(alloc, delete)?))
            }
            Frame::Prim(prim, before, after) => {
                Ok(Term::Prim(prim, arguments(alloc, before, inner, after)?))
            }
        }
    }
}

impl Branching {
    fn with_scrutinee(self, scrutinee: Term) -> Case
        ensures { case result ≡ node (case_form self) (case_parts self (term scrutinee)) }
    {
        Case {
            mult: self.mult,
            family: self.family,
            params: self.params,
            indices: self.indices,
            motive: self.motive,
            branches: self.branches,
            scrutinee,
        }
    }
}

impl Deletion {
    fn with_scrutinee(self, scrutinee: Term) -> Delete
        ensures { delete result ≡ node (delete_form self) (delete_parts self (term scrutinee)) }
    {
        Delete {
            mult: self.mult,
            ty: self.ty,
            point: self.point,
            motive: self.motive,
            branch: self.branch,
            scrutinee,
        }
    }
}

/// The arguments of a primitive: literals, one more, and those behind it.
#[tactic(auto, using(crate::proofs::Literals::literals_and_others))]
fn arguments(
    alloc: Global,
    before: Vec<Lit>,
    inner: Term,
    mut after: Vec<Term>,
) -> Result<Vec<Term>, MemoryError>
    ensures { IfOk result (λ v. side_by_side (terms v.items) ≡ literal_terms before.items +++
        (term inner ▸ side_by_side (terms after.items))) }
{
    let mut all = literals_as_terms(alloc, before)?;
    all.push(inner)?;
    all.append(&mut after)?;
    Ok(all)
}

fn literals_as_terms(alloc: Global, literals: Vec<Lit>) -> Result<Vec<Term>, MemoryError>
    ensures { IfOk result (λ v. v.items ≡ map (λ l. code_term.Lit l) literals.items) }
{
    Ok(
        literals
            .into_iter()
            .map(|literal| Term::Lit(literal))
            .collect(alloc)?,
    )
}

/// The frame around the component whose head a term takes, and that component; none where the
/// head of no component is taken.
pub fn taken_apart(alloc: Global, t: &Term) -> Result<Option<(Frame, &Term)>, MemoryError>
    ensures { IfOk result (λ o. MatchOption o (IsFocus (term t.now))
        (λ r. (plug r.0 (term r.1.now) ≡ term t.now) × Fits r.0 (term r.1.now))) }
{
    match t {
        Term::App(mult, function, argument) => {
            Ok(Some((Frame::Argument(*mult, argument.copy(alloc)?), function)))
        }
        Term::Case(case) => {
            let branching = Box::new(alloc, around_scrutinee(alloc, case)?)?;
            Ok(Some((Frame::Case(branching), &case.scrutinee)))
        }
        Term::Delete(delete) => {
            let deletion = Box::new(alloc, around_proof(alloc, delete)?)?;
            Ok(Some((Frame::Delete(deletion), &delete.scrutinee)))
        }
        Term::Prim(prim, arguments) => {
            let (before, rest) = leading_literals(alloc, arguments)?;
            match rest.split_first() {
                Some((next, after)) => {
                    let after = copy_all(alloc, after)?;
                    Ok(Some((Frame::Prim(*prim, before, after), next)))
                }
                None => Ok(None),
            }
        }
        _ => Ok(None),
    }
}

/// Copies of the literals with which a list begins, and what follows them.
#[tactic(auto, using(crate::proofs::Literals::literal_pushed))]
pub fn leading_literals(
    alloc: Global,
    arguments: &[Term],
) -> Result<(Vec<Lit>, &[Term]), MemoryError>
    ensures parts { IfOk result
        (λ r. side_by_side (terms arguments.now) ≡ literal_terms r.0.items +++ side_by_side
        (terms r.1.now)) }
    ensures stops { IfOk result (λ r. starts_with_no_literal (side_by_side (terms r.1.now))) }
{
    let mut literals = Vec::new(alloc);
    let mut rest = arguments;
    while let Some((literal, later)) = first_literal(rest) {
        literals.push(literal.copy()?)?;
        rest = later;
    }
    Ok((literals, rest))
}

/// The literal with which a list begins, and what follows it.
fn first_literal(arguments: &[Term]) -> Option<(&Lit, &[Term])>
    ensures cases { MatchOption result
        (starts_with_no_literal (side_by_side (terms arguments.now)))
        (λ r. side_by_side (terms arguments.now) ≡ literal_term r.0.now ▸ side_by_side
        (terms r.1.now)) }
    ensures shorter { IfSome result (λ r. length r.1.now < length arguments.now) }
{
    match arguments.split_first()? {
        (Term::Lit(literal), rest) => Some((literal, rest)),
        _ => None,
    }
}

/// A Case but for its scrutinee.
fn around_scrutinee(alloc: Global, source: &Case) -> Result<Branching, MemoryError>
    ensures { IfOk result (λ b. case source.now ≡ node (case_form b)
        (case_parts b (term (out-Case source.now).scrutinee))) }
{
    Ok(Branching {
        mult: source.mult,
        family: source.family,
        params: copy_all(alloc, &source.params)?,
        indices: source.indices,
        motive: source.motive.copy(alloc)?,
        branches: copy_branches(alloc, &source.branches)?,
    })
}

fn copy_branches(alloc: Global, sources: &[Branch]) -> Result<Vec<Branch>, MemoryError>
    ensures { IfOk result (λ v. branches v.items ≡ branches sources.now) }
{
    let mut copies = Vec::with_capacity(alloc, sources.len())?;
    for source in sources {
        copies.push(Branch {
            fields: source.fields,
            body: source.body.copy(alloc)?,
        })?;
    }
    Ok(copies)
}

/// A Delete but for its scrutinee.
fn around_proof(alloc: Global, source: &Delete) -> Result<Deletion, MemoryError>
    ensures { IfOk result (λ d. delete source.now ≡ node (delete_form d)
        (delete_parts d (term source.now.scrutinee))) }
{
    Ok(Deletion {
        mult: source.mult,
        ty: source.ty.copy(alloc)?,
        point: source.point.copy(alloc)?,
        motive: source.motive.copy(alloc)?,
        branch: source.branch.copy(alloc)?,
    })
}
