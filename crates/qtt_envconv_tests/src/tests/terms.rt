//! Terms that are asked about.

use qtt_base::GlobalId;
use qtt_prims::Primitive;
use qtt_programs::terms::{call, choice, int, prim_item, reflexivity};
use qtt_term::{ConId, Delete, Term};
use qtt_usage::mult::Mult;
use std::alloc::Global;
use std::test::Fail;

/// A constructor of a family, with fields.
pub fn con(alloc: Global, family: GlobalId, place: u32, fields: Vec<Term>) -> Term {
    Term::Con(ConId { family, place }, Vec::new(alloc), fields)
}

/// A function at this multiplicity from Int.
pub fn function(alloc: Global, mult: Mult, body: Term) -> Result<Term, Fail> {
    Ok(Term::lam(alloc, mult, Term::IntTy, body)?)
}

/// A match on a Bool, to Int: 0 where it is false.
pub fn case(alloc: Global, if_true: Term, scrutinee: Term) -> Result<Term, Fail> {
    Ok(choice(alloc, int(0), if_true, scrutinee)?)
}

/// A term, by a proof that 3 is 3.
pub fn delete(alloc: Global, branch: Term, proof: Term) -> Result<Term, Fail> {
    let delete = Delete {
        mult: Mult::Many,
        ty: Term::IntTy,
        point: int(3),
        motive: Term::IntTy,
        branch,
        scrutinee: proof,
    };
    Ok(Term::Delete(Box::new(alloc, delete)?))
}

/// The proof that 3 is 3.
pub fn three_is_three(alloc: Global) -> Result<Term, Fail> {
    Ok(reflexivity(alloc, Term::IntTy, int(3))?)
}

/// A constructor with another one, with a match, with a sum to which this number is added.
pub fn nested(alloc: Global, number: i64) -> Result<Term, Fail> {
    let sum = call(alloc, Primitive::AddInt, Term::Var(0), int(number))?;
    let inner = vec![in alloc; case(alloc, sum, Term::Var(1))?]?;
    let fields = vec![in alloc; Term::Var(0), con(alloc, prim_item(4), 1, inner)]?;
    Ok(con(alloc, prim_item(4), 0, fields))
}
