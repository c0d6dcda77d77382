//! Heads and comparisons at their exact counts.

use qtt_base::{GlobalId, ModuleId};
use qtt_confluence::decide;
use qtt_conv::BySubst;
use qtt_prims::Primitive;
use qtt_programs::naturals::{program, successor, sum};
use qtt_programs::terms::{branch, call, int, item};
use qtt_term::{Answer, Case, ConId, Converter, Delete, Globals, Head, Term};
use qtt_usage::mult::Mult;
use std::alloc::Global;
use std::test::Fail;

/// Families of the module Prim.
const BOOL: GlobalId = GlobalId {
    module: ModuleId(0),
    item: 4,
};

const EQ: GlobalId = GlobalId {
    module: ModuleId(0),
    item: 13,
};

/// A constructor of the family Bool, with fields.
fn con(alloc: Global, place: u32, fields: Vec<Term>) -> Term {
    let con = ConId {
        family: BOOL,
        place,
    };
    Term::Con(con, Vec::new(alloc), fields)
}

/// The identity on a type, at this multiplicity.
fn identity(alloc: Global, mult: Mult, ty: Term) -> Result<Term, Fail> {
    Ok(Term::lam(alloc, mult, ty, Term::Var(0))?)
}

/// A Case on a Bool, to Int: 0 where it is false.
fn case(alloc: Global, if_true: Term, scrutinee: Term) -> Result<Term, Fail> {
    let case = Case {
        mult: Mult::Many,
        family: BOOL,
        params: Vec::new(alloc),
        indices: 0,
        motive: Term::IntTy,
        branches: vec![in alloc; branch(0, int(0)), branch(0, if_true)]?,
        scrutinee,
    };
    Ok(Term::Case(Box::new(alloc, case)?))
}

/// Whether the head is this term after so many contractions.
fn is_head(head: &Head, term: &Term, count: u64) -> bool {
    match head {
        Head::Done(found, made) => found.same(term) && *made == count,
        Head::Spent => false,
    }
}

/// Whether a term's head is this term after one contraction more than so many.
fn head_past(
    alloc: Global,
    env: &Globals,
    fewer: u32,
    t: &Term,
    head: &Term,
) -> Result<bool, Fail> {
    let count = u64::from(fewer) + 1;
    if let Head::Done(_, _) = BySubst.head(alloc, u64::from(fewer), env, t)? {
        return Ok(false);
    }
    Ok(is_head(&BySubst.head(alloc, count, env, t)?, head, count))
}

fn is_spent(answer: &Answer) -> bool {
    match answer {
        Answer::Spent => true,
        _ => false,
    }
}

fn is_equal(answer: &Answer) -> bool {
    match answer {
        Answer::Equal => true,
        _ => false,
    }
}

/// Whether terms are found equal with one contraction more than so many, and not before.
fn equal_past(alloc: Global, env: &Globals, fewer: u32, t: &Term, u: &Term) -> Result<bool, Fail> {
    let before = decide(alloc, &BySubst, u64::from(fewer), env, t, u)?;
    let after = decide(alloc, &BySubst, u64::from(fewer) + 1, env, t, u)?;
    Ok(is_spent(&before) && is_equal(&after))
}

/// Whether terms are found equal at those of the budgets 3, 4, 10 and 11 that are at least this
/// one, and spent at the others.
fn equal_from(alloc: Global, env: &Globals, least: u64, t: &Term, u: &Term) -> Result<bool, Fail> {
    for n in [3, 4, 10, 11] {
        let answer = decide(alloc, &BySubst, n, env, t, u)?;
        let is_right = if n < least {
            is_spent(&answer)
        } else {
            is_equal(&answer)
        };
        if !is_right {
            return Ok(false);
        }
    }
    Ok(true)
}

/// Whether terms differ at this place, with no contraction.
fn differ_at(
    alloc: Global,
    env: &Globals,
    t: &Term,
    u: &Term,
    place: &[u32],
) -> Result<bool, Fail> {
    match BySubst.compare(alloc, 0, env, t, u)? {
        Answer::Different(path) => Ok(path.as_slice() == place),
        _ => Ok(false),
    }
}

#[test]
fn sums_take_one_contraction(rt: HostRuntime) -> Result<(), Fail> {
    let alloc = rt.alloc();
    let env = Globals::prim(alloc)?;
    let sum = call(alloc, Primitive::AddInt, int(1), int(2))?;
    assert!(rt; equal_past(alloc, &env, 0, &sum, &int(3))?);
    Ok(())
}

#[test]
fn rigid_heads_differ(rt: HostRuntime) -> Result<(), Fail> {
    let alloc = rt.alloc();
    let env = Globals::prim(alloc)?;
    let division = call(alloc, Primitive::DivInt, int(1), int(0))?;
    assert!(rt; differ_at(alloc, &env, &division, &int(0), &[])?);
    assert!(rt; differ_at(alloc, &env, &Term::StringTy, &Term::IntTy, &[])?);
    Ok(())
}

#[test]
fn functions_take_their_argument(rt: HostRuntime) -> Result<(), Fail> {
    let alloc = rt.alloc();
    let env = Globals::prim(alloc)?;
    let applied = Term::app(
        alloc,
        Mult::One,
        identity(alloc, Mult::One, Term::IntTy)?,
        int(3),
    )?;
    assert!(rt; head_past(alloc, &env, 0, &applied, &int(3))?);
    Ok(())
}

#[test]
fn functions_take_no_argument_at_another_multiplicity(rt: HostRuntime) -> Result<(), Fail> {
    let alloc = rt.alloc();
    let env = Globals::prim(alloc)?;
    let applied = Term::app(
        alloc,
        Mult::One,
        identity(alloc, Mult::Many, Term::IntTy)?,
        int(3),
    )?;
    assert!(rt; is_head(&BySubst.head(alloc, 1, &env, &applied)?, &applied, 0));
    Ok(())
}

/// A match on the identity of True.
fn match_on_a_call(alloc: Global) -> Result<Term, Fail> {
    let bool_type = Term::Fam(BOOL, Vec::new(alloc));
    let identity = identity(alloc, Mult::Many, bool_type)?;
    let scrutinee = Term::app(alloc, Mult::Many, identity, con(alloc, 1, Vec::new(alloc)))?;
    case(alloc, int(1), scrutinee)
}

#[test]
fn matches_take_their_scrutinee_first(rt: HostRuntime) -> Result<(), Fail> {
    let alloc = rt.alloc();
    let env = Globals::prim(alloc)?;
    let chosen = match_on_a_call(alloc)?;
    assert!(rt; head_past(alloc, &env, 1, &chosen, &int(1))?);
    Ok(())
}

/// 1, by a proof that 3 is 3.
fn delete_of_refl(alloc: Global) -> Result<Term, Fail> {
    let con = ConId {
        family: EQ,
        place: 0,
    };
    let delete = Delete {
        mult: Mult::Many,
        ty: Term::IntTy,
        point: int(3),
        motive: Term::IntTy,
        branch: int(1),
        scrutinee: Term::Con(con, vec![in alloc; Term::IntTy, int(3)]?, Vec::new(alloc)),
    };
    Ok(Term::Delete(Box::new(alloc, delete)?))
}

#[test]
fn proofs_by_reflexivity_are_deleted(rt: HostRuntime) -> Result<(), Fail> {
    let alloc = rt.alloc();
    let env = Globals::prim(alloc)?;
    let delete = delete_of_refl(alloc)?;
    assert!(rt; head_past(alloc, &env, 0, &delete, &int(1))?);
    Ok(())
}

/// A constructor with another one, with a match, with a sum to which this number is added.
fn nested(alloc: Global, number: i64) -> Result<Term, Fail> {
    let sum = call(alloc, Primitive::AddInt, Term::Var(0), int(number))?;
    let inner = con(alloc, 1, vec![in alloc; case(alloc, sum, Term::Var(1))?]?);
    Ok(con(alloc, 0, vec![in alloc; Term::Var(0), inner]?))
}

/// The second field, its first field, the second branch behind the motive, and the second
/// argument.
#[test]
fn places_are_paths(rt: HostRuntime) -> Result<(), Fail> {
    let alloc = rt.alloc();
    let env = Globals::prim(alloc)?;
    let one = nested(alloc, 1)?;
    let other = nested(alloc, 2)?;
    assert!(rt; differ_at(alloc, &env, &one, &other, &[1, 0, 2, 1])?);
    Ok(())
}

#[test]
fn branches_come_before_the_scrutinee(rt: HostRuntime) -> Result<(), Fail> {
    let alloc = rt.alloc();
    let env = Globals::prim(alloc)?;
    let one = case(alloc, int(1), Term::Var(0))?;
    let other = case(alloc, int(2), Term::Var(1))?;
    assert!(rt; differ_at(alloc, &env, &one, &other, &[2])?);
    Ok(())
}

/// The identity at a variable, applied to so many arguments more.
fn applied(alloc: Global, count: u32) -> Result<Term, Fail> {
    let identity = identity(alloc, Mult::Many, Term::IntTy)?;
    let mut call = Term::app(alloc, Mult::Many, identity, Term::Var(0))?;
    for _ in 0..count {
        call = Term::app(alloc, Mult::Many, call, Term::IntTy)?;
    }
    Ok(call)
}

/// What stands below all arguments, or below so many. The applications are let go one by one from
/// outside, which takes no stack.
fn innermost(t: Term, most: u32) -> Term {
    let mut inner = t;
    for _ in 0..most {
        match function_of(&mut inner) {
            Some(function) => inner = function,
            None => return inner,
        }
    }
    inner
}

/// What an application applies, out of its place.
fn function_of(t: &mut Term) -> Option<Term> {
    match t {
        Term::App(_, function, _) => Some(function.take()),
        _ => None,
    }
}

#[test]
fn heads_are_found_deep_in_function_place(rt: HostRuntime) -> Result<(), Fail> {
    let alloc = rt.alloc();
    let env = Globals::prim(alloc)?;
    let deep = applied(alloc, 200_000)?;
    let head = BySubst.head(alloc, 1, &env, &deep)?;
    let function = identity(alloc, Mult::Many, Term::IntTy)?;
    assert!(rt; innermost(deep, u32::MAX).same(&function));
    let Head::Done(found, made) = head else {
        return Err(Fail::from("spent"));
    };
    assert_eq!(rt; made, 1);
    assert!(rt; innermost(found, u32::MAX).same(&Term::Var(0)));
    Ok(())
}

/// At each of the budgets, since none of them is 12: two definitions, each of which is itself.
#[test]
fn circles_are_spent(rt: HostRuntime) -> Result<(), Fail> {
    let alloc = rt.alloc();
    let env = program(alloc)?;
    let circle = Term::Def(item(8));
    assert!(rt; equal_from(alloc, &env, 12, &Term::Def(item(9)), &circle)?);
    Ok(())
}

#[test]
fn a_term_is_itself_without_contractions(rt: HostRuntime) -> Result<(), Fail> {
    let alloc = rt.alloc();
    let env = program(alloc)?;
    let circle = Term::Def(item(8));
    assert!(rt; is_equal(&BySubst.compare(alloc, 0, &env, &circle, &circle)?));
    Ok(())
}

/// Int under eleven further names.
#[test]
fn aliases_take_a_contraction_each(rt: HostRuntime) -> Result<(), Fail> {
    let alloc = rt.alloc();
    let env = program(alloc)?;
    assert!(rt; equal_from(alloc, &env, 11, &Term::IntTy, &Term::Def(item(21)))?);
    Ok(())
}

/// A definition, two functions and a match.
#[test]
fn sums_of_successors_take_four(rt: HostRuntime) -> Result<(), Fail> {
    let alloc = rt.alloc();
    let env = program(alloc)?;
    let one = sum(alloc, successor(alloc, Term::Var(1))?, Term::Var(0))?;
    let other = successor(alloc, sum(alloc, Term::Var(1), Term::Var(0))?)?;
    assert!(rt; equal_from(alloc, &env, 4, &one, &other)?);
    Ok(())
}
