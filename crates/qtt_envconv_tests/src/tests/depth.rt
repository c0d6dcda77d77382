//! Terms that are nested deep, and terms of many nodes, asked about over environments.

use super::alike::same_answer;
use super::terms::{case, function};
use qtt_envconv::ByEnv;
use qtt_programs::naturals::successor;
use qtt_programs::terms::{int, shown};
use qtt_term::{Answer, Converter, Globals, Head, Term};
use qtt_usage::mult::Mult;
use std::alloc::Global;
use std::test::Fail;

/// How deep terms are nested. A term of this depth is never let go as a whole, which takes stack
/// for each level, but taken apart from outside.
const DEPTH: u32 = 100_000;

/// The form that each level of a deep term has. A head is taken through the first three.
#[derive(Clone, Copy, Debug)]
enum Level {
    Application,
    Match,
    Primitive,
    Function,
    Successor,
}

const LEVELS: [Level; 5] = [
    Level::Application,
    Level::Match,
    Level::Primitive,
    Level::Function,
    Level::Successor,
];

/// One level around a term.
fn around(alloc: Global, level: Level, inner: Term) -> Result<Term, Fail> {
    match level {
        Level::Application => Ok(Term::app(alloc, Mult::Many, inner, Term::IntTy)?),
        Level::Match => case(alloc, int(1), inner),
        Level::Primitive => Ok(shown(alloc, inner)?),
        Level::Function => function(alloc, Mult::Many, inner),
        Level::Successor => Ok(successor(alloc, inner)?),
    }
}

/// So many levels around a term.
fn nested(alloc: Global, level: Level, depth: u32, innermost: Term) -> Result<Term, Fail> {
    let mut t = innermost;
    for _ in 0..depth {
        t = around(alloc, level, t)?;
    }
    Ok(t)
}

/// What stands below a level, out of its place.
fn below(t: &mut Term) -> Option<Term> {
    match t {
        Term::App(_, function, _) => Some(function.take()),
        Term::Case(case) => Some(case.scrutinee.take()),
        Term::Prim(_, arguments) => arguments.pop(),
        Term::Lam(_, _, body) => Some(body.take()),
        Term::Con(_, _, fields) => fields.pop(),
        _ => None,
    }
}

/// How many levels a term has, and what stands below all of them. The levels are let go one by one
/// from outside, which takes no stack.
fn taken_apart(t: Term) -> (u32, Term) {
    let mut inner = t;
    for depth in 0..u32::MAX {
        match below(&mut inner) {
            Some(next) => inner = next,
            None => return (depth, inner),
        }
    }
    (u32::MAX, inner)
}

/// Whether a term is a variable below so many levels.
fn is_variable_below(t: Term, depth: u32, index: u32) -> bool {
    let (levels, innermost) = taken_apart(t);
    levels == depth && innermost.same(&Term::Var(index))
}

fn is_equal(answer: &Answer) -> bool {
    same_answer(answer, &Answer::Equal)
}

fn is_spent(answer: &Answer) -> bool {
    same_answer(answer, &Answer::Spent)
}

/// The identity at a variable.
fn identity_at(alloc: Global, index: u32) -> Result<Term, Fail> {
    let identity = function(alloc, Mult::Many, Term::Var(0))?;
    Ok(Term::app(alloc, Mult::Many, identity, Term::Var(index))?)
}

/// The identity at a variable, below levels through which a head is taken, is equal to its head
/// after the one contraction that gives it, and not before.
#[test]
fn deep_heads_take_no_stack(rt: HostRuntime) -> Result<(), Fail> {
    let alloc = rt.alloc();
    let env = Globals::prim(alloc)?;
    for level in [Level::Application, Level::Match, Level::Primitive] {
        let deep = nested(alloc, level, DEPTH, identity_at(alloc, 7)?)?;
        let Head::Done(head, made) = ByEnv.head(alloc, 1, &env, &deep)? else {
            return Err(Fail::from("spent"));
        };
        let before = ByEnv.compare(alloc, 0, &env, &deep, &head)?;
        let after = ByEnv.compare(alloc, 1, &env, &deep, &head)?;
        let (_, _innermost) = taken_apart(deep);
        assert!(rt; is_variable_below(head, DEPTH, 7), "{level:?}");
        assert!(rt;
            made == 1 && is_spent(&before) && is_equal(&after),
            "{level:?}"
        );
    }
    Ok(())
}

/// Two terms that are made alike are equal without a contraction.
#[test]
fn deep_equality_takes_no_stack(rt: HostRuntime) -> Result<(), Fail> {
    let alloc = rt.alloc();
    let env = Globals::prim(alloc)?;
    for level in LEVELS {
        let one = nested(alloc, level, DEPTH, Term::Var(7))?;
        let other = nested(alloc, level, DEPTH, Term::Var(7))?;
        let answer = ByEnv.compare(alloc, 0, &env, &one, &other)?;
        assert!(rt; is_variable_below(one, DEPTH, 7), "{level:?}");
        assert!(rt; is_variable_below(other, DEPTH, 7), "{level:?}");
        assert!(rt; is_equal(&answer), "{level:?}");
    }
    Ok(())
}

/// A difference below 300 levels is told with a place of so many numbers. The time for it grows
/// with the square of the depth.
#[test]
fn deep_differences_have_a_place(rt: HostRuntime) -> Result<(), Fail> {
    let alloc = rt.alloc();
    let env = Globals::prim(alloc)?;
    for level in LEVELS {
        let one = nested(alloc, level, 300, Term::Var(7))?;
        let other = nested(alloc, level, 300, Term::Var(8))?;
        let Answer::Different(path) = ByEnv.compare(alloc, 0, &env, &one, &other)? else {
            return Err(Fail::from("not different"));
        };
        assert_eq!(rt; path.len(), 300, "{level:?}");
    }
    Ok(())
}

/// Applications of 2^19 variables, each half to the other; all are variable 0 but the last.
fn balanced(alloc: Global, last: u32) -> Result<Term, Fail> {
    let mut all = Term::Var(last);
    let mut others = Term::Var(0);
    for _ in 0..19 {
        all = Term::app(alloc, Mult::Many, others.copy(alloc)?, all)?;
        others = Term::app(alloc, Mult::Many, others.copy(alloc)?, others)?;
    }
    Ok(all)
}

/// Two terms of 1,048,575 nodes each are equal, also where one contraction leads to one of them, or
/// differ in the last node.
#[test]
fn a_million_nodes_are_compared(rt: HostRuntime) -> Result<(), Fail> {
    let alloc = rt.alloc();
    let env = Globals::prim(alloc)?;
    let one = balanced(alloc, 1)?;
    let other = balanced(alloc, 1)?;
    assert!(rt; is_equal(&ByEnv.compare(alloc, 0, &env, &one, &other)?));
    let Answer::Different(path) = ByEnv.compare(alloc, 0, &env, &one, &balanced(alloc, 2)?)? else {
        return Err(Fail::from("not different"));
    };
    assert!(rt; path.as_slice() == [1; 19].as_slice());
    let identity = function(alloc, Mult::Many, Term::Var(0))?;
    let call = Term::app(alloc, Mult::Many, identity, other)?;
    assert!(rt; is_spent(&ByEnv.compare(alloc, 0, &env, &call, &one)?));
    assert!(rt; is_equal(&ByEnv.compare(alloc, 1, &env, &call, &one)?));
    Ok(())
}
