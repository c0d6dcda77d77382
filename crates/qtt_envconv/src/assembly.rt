//! Terms put together from what is fixed of them and their components.

ghost use Rattle.std.specs.Prelude.{◌≡◌, ◌<◌, ◌≤◌, ◌∷◌, ◌++◌, [], IfOk, vec_len, length, map};
ghost use Rattle.qtt_term.specs.Term.{node as term_node};
ghost use Rattle.qtt_term.specs.View.{term, terms, case as case_of, delete as delete_of, branches as branches_of, side_by_side};
ghost use Rattle.qtt_envconv.specs.Shapes.{form, case_form, case_size, fits};

use crate::shape::Shape;
use qtt_base::MemoryError;
use qtt_term::{Branch, Case, Delete, Term};
use qtt_usage::mult::Mult;
use std::alloc::Global;

/// The term of a shape with these components.
#[tactic(auto, using(crate::proofs::Assembling::assembling))]
pub fn assembled(alloc: Global, shape: Shape<'_>, parts: Vec<Term>) -> Result<Term, MemoryError>
    requires { fits shape (vec_len parts) }
    ensures { IfOk result (λ t. term t ≡ term_node (form shape.entry)
        (side_by_side (terms parts.items))) }
{
    match shape {
        Shape::Sort(level) => Ok(Term::Sort(level)),
        Shape::Pi(mult) => {
            let (domain, codomain) = two(parts);
            Ok(Term::pi(alloc, mult, domain, codomain)?)
        }
        Shape::Lam(mult) => {
            let (domain, body) = two(parts);
            Ok(Term::lam(alloc, mult, domain, body)?)
        }
        Shape::App(mult) => {
            let (function, argument) = two(parts);
            Ok(Term::app(alloc, mult, function, argument)?)
        }
        Shape::Family(id) => Ok(Term::Fam(id, parts)),
        Shape::Constructor(id, params) => {
            let (params, fields) = split(parts, params)?;
            Ok(Term::Con(id, params, fields))
        }
        Shape::Case(source) => {
            let case = case_with(alloc, source, parts)?;
            Ok(Term::Case(Box::new(alloc, case)?))
        }
        Shape::Delete(mult) => Ok(Term::Delete(Box::new(alloc, delete_with(mult, parts))?)),
        Shape::Definition(id) => Ok(Term::Def(id)),
        Shape::Literal(literal) => Ok(Term::Lit(literal.copied(alloc)?)),
        Shape::IntTy => Ok(Term::IntTy),
        Shape::StringTy => Ok(Term::StringTy),
        Shape::HandleTy => Ok(Term::HandleTy),
        Shape::IoTy(kind) => Ok(Term::IoTy(kind, Box::new(alloc, one(parts))?)),
        Shape::Prim(prim) => Ok(Term::Prim(prim, parts)),
        Shape::Act(kind, types) => {
            let (types, arguments) = split(parts, types)?;
            Ok(Term::Act(kind, types, arguments))
        }
        Shape::Trap => Ok(Term::Trap(Box::new(alloc, one(parts))?)),
        Shape::Tape(number) => Ok(Term::Tape(number)),
    }
}

/// The last, taken out.
fn last(parts: &mut Vec<Term>) -> Term
    requires { 0 < vec_len parts.old }
    ensures { parts.old.items ≡ parts.new.items ++ result ∷ [] }
{
    parts.pop().unwrap()
}

fn one(mut parts: Vec<Term>) -> Term
    requires { vec_len parts ≡ 1 }
    ensures { parts.items ≡ result ∷ [] }
{
    last(&mut parts)
}

fn two(mut parts: Vec<Term>) -> (Term, Term)
    requires { vec_len parts ≡ 2 }
    ensures { parts.items ≡ result.0 ∷ result.1 ∷ [] }
{
    let second = last(&mut parts);
    (one(parts), second)
}

/// So many components, and those behind them.
fn split(mut parts: Vec<Term>, count: usize) -> Result<(Vec<Term>, Vec<Term>), MemoryError>
    requires { count ≤ vec_len parts }
    ensures { IfOk result (λ r. (length r.0.items ≡ count) ×
        (r.0.items ++ r.1.items ≡ parts.items)) }
{
    let behind = parts.split_off(count)?;
    Ok((parts, behind))
}

/// The Case with these components in the place of its own.
fn case_with(alloc: Global, source: &Case, parts: Vec<Term>) -> Result<Case, MemoryError>
    requires { vec_len parts ≡ case_size source.now }
    ensures { IfOk result (λ c. case_of c ≡ term_node (case_form source.now)
        (side_by_side (terms parts.items))) }
{
    let (params, mut behind) = split(parts, source.params.len())?;
    let scrutinee = last(&mut behind);
    let (motive, bodies) = split(behind, 1)?;
    Ok(Case {
        mult: source.mult,
        family: source.family,
        params,
        indices: source.indices,
        motive: one(motive),
        branches: branches_with(alloc, &source.branches, bodies)?,
        scrutinee,
    })
}

/// The branches with these bodies in the place of their own.
fn branches_with(
    alloc: Global,
    sources: &[Branch],
    bodies: Vec<Term>,
) -> Result<Vec<Branch>, MemoryError>
    requires { vec_len bodies ≡ length sources.now }
    ensures fields { IfOk result (λ v. map (λ b. b.0) (branches_of v.items) ≡
        map (λ b. b.0) (branches_of sources.now)) }
    ensures bodies { IfOk result (λ v. map (λ b. b.1) (branches_of v.items) ≡
        terms bodies.items) }
{
    let mut branches = Vec::with_capacity(alloc, sources.len())?;
    for body in bodies {
        branches.push(Branch {
            fields: sources[branches.len()].fields,
            body,
        })?;
    }
    Ok(branches)
}

/// The Delete with these components.
fn delete_with(mult: Mult, mut parts: Vec<Term>) -> Delete
    requires { vec_len parts ≡ 5 }
    ensures { delete_of result ≡ term_node (form (Shape.Delete mult))
        (side_by_side (terms parts.items)) }
{
    let scrutinee = last(&mut parts);
    let branch = last(&mut parts);
    let motive = last(&mut parts);
    let (ty, point) = two(parts);
    Delete {
        mult,
        ty,
        point,
        motive,
        branch,
        scrutinee,
    }
}
