//! The same questions answered both ways, at the same budgets.

mod alike;
mod deciding;
mod depth;
mod generated;
mod terms;

use alike::{answer_both_ways, head_both_ways};
use qtt_prims::Primitive;
use qtt_programs::naturals::{program, successor, sum};
use qtt_programs::terms::{call, int, item};
use qtt_term::{Globals, Term};
use qtt_usage::mult::Mult;
use std::alloc::Global;
use std::test::Fail;
use terms::{case, con, delete, function, nested, three_is_three};

/// Budgets at which all is asked.
const BUDGETS: [u64; 7] = [0, 1, 2, 3, 4, 10, 11];

/// Numbers: literals, sums, a division by zero, and matches on comparisons.
fn push_numbers(alloc: Global, terms: &mut Vec<Term>) -> Result<(), Fail> {
    terms.push(int(3))?;
    terms.push(call(alloc, Primitive::AddInt, int(1), int(2))?)?;
    let two = call(alloc, Primitive::AddInt, int(1), int(1))?;
    terms.push(call(alloc, Primitive::AddInt, int(1), two)?)?;
    let three = call(alloc, Primitive::AddInt, int(1), int(2))?;
    terms.push(call(alloc, Primitive::MulInt, three, Term::Var(0))?)?;
    terms.push(call(alloc, Primitive::MulInt, int(3), Term::Var(0))?)?;
    terms.push(call(alloc, Primitive::DivInt, int(1), int(0))?)?;
    let below = call(alloc, Primitive::LtInt, int(1), int(2))?;
    terms.push(case(alloc, int(3), below)?)?;
    let above = call(alloc, Primitive::LtInt, int(2), int(1))?;
    terms.push(case(alloc, int(3), above)?)?;
    terms.push(delete(alloc, int(1), three_is_three(alloc)?)?)?;
    terms.push(nested(alloc, 1)?)?;
    terms.push(nested(alloc, 2)?)?;
    Ok(())
}

/// Functions that are applied, at their multiplicity and at another, and functions whose bodies
/// contract.
fn push_functions(alloc: Global, terms: &mut Vec<Term>) -> Result<(), Fail> {
    for mult in [Mult::One, Mult::Many] {
        let identity = function(alloc, mult, Term::Var(0))?;
        terms.push(Term::app(alloc, Mult::One, identity, int(3))?)?;
    }
    for index in 0..3u32 {
        terms.push(function(alloc, Mult::Many, Term::Var(index))?)?;
        let inner = function(alloc, Mult::Many, Term::Var(index))?;
        let outer = function(alloc, Mult::Many, inner)?;
        terms.push(Term::app(alloc, Mult::Many, outer, Term::Var(1))?)?;
        let identity = function(alloc, Mult::Many, Term::Var(0))?;
        let body = Term::app(alloc, Mult::Many, identity, Term::Var(index))?;
        terms.push(function(alloc, Mult::Many, body)?)?;
    }
    Ok(())
}

/// Sums of natural numbers, and definitions: two circles, and Int under other names.
fn push_definitions(alloc: Global, terms: &mut Vec<Term>) -> Result<(), Fail> {
    terms.push(sum(alloc, successor(alloc, Term::Var(1))?, Term::Var(0))?)?;
    terms.push(successor(alloc, sum(alloc, Term::Var(1), Term::Var(0))?)?)?;
    let zero = con(alloc, item(0), 0, Vec::new(alloc));
    let one = successor(alloc, con(alloc, item(0), 0, Vec::new(alloc)))?;
    let other = successor(alloc, con(alloc, item(0), 0, Vec::new(alloc)))?;
    terms.push(successor(alloc, successor(alloc, zero)?)?)?;
    terms.push(sum(alloc, one, other)?)?;
    terms.push(Term::IntTy)?;
    for number in [8, 9, 11, 21] {
        terms.push(Term::Def(item(number)))?;
    }
    Ok(())
}

/// Asks for the head of a term at each budget.
fn ask_heads(alloc: Global, env: &Globals, t: &Term) -> Result<(), Fail> {
    for n in BUDGETS {
        let _head = head_both_ways(alloc, n, env, t)?;
    }
    Ok(())
}

/// Asks for the answer on two terms at each budget.
fn ask_answers(alloc: Global, env: &Globals, t: &Term, u: &Term) -> Result<(), Fail> {
    for n in BUDGETS {
        let _answer = answer_both_ways(alloc, n, env, t, u)?;
    }
    Ok(())
}

/// Each of the terms, and each two of them.
#[test]
fn both_ways_agree(rt: HostRuntime) -> Result<(), Fail> {
    let alloc = rt.alloc();
    let env = program(alloc)?;
    let mut terms = Vec::new(alloc);
    push_numbers(alloc, &mut terms)?;
    push_functions(alloc, &mut terms)?;
    push_definitions(alloc, &mut terms)?;
    for t in &terms {
        ask_heads(alloc, &env, t)?;
        for u in &terms {
            ask_answers(alloc, &env, t, u)?;
        }
    }
    Ok(())
}
