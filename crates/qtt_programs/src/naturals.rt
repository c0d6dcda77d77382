//! A small program beside the module Prim.
//!
//!     data Nat : Type where Z : Nat; S : Nat -> Nat        -- items 0, 1 and 2
//!     plus : Nat -> Nat -> Nat                             -- item 3
//!     plus Z m = m; plus (S n) m = S (plus n m)
//!     data Box : Type where MkBox : (1 n : Int) -> Box     -- items 4 and 5
//!     data Void : Type where                               -- item 6
//!     0 hidden : Int; hidden = 3                           -- item 7
//!     v : Type; v = v; w : Type; w = w                     -- items 8 and 9
//!     a1 : Type; a1 = Int; a2 : Type; a2 = a1              -- items 11 and 12, and so on to
//! a11, item 21

ghost use Rattle.std.specs.Prelude.{◌≡◌, [], ◌∷◌, IfOk};
ghost use Rattle.qtt_term.specs.Programs.{item as item_of, nat, s, plus as plus_of, plus_body as body_of_plus};
ghost use Rattle.qtt_term.specs.Term.{Form, var, node, ε, ◌▸◌};
ghost use Rattle.qtt_term.specs.View.{term};
ghost use Rattle.qtt_usage.specs.Mult.{ω};

use crate::building::{add, constructor, define_at, plain_family};
use crate::terms::{Made, branch, item};
use qtt_prims::Lit;
use qtt_term::{Case, ConId, Family, Globals, Term};
use qtt_usage::mult::Mult;
use std::alloc::Global;
use std::test::Fail;

/// A family of Main without parameters and indices.
pub fn main_family(alloc: Global, number: u32) -> Term {
    Term::Fam(item(number), Vec::new(alloc))
}

fn numbers(alloc: Global) -> Result<Family, Fail> {
    let zero = constructor(alloc, 1, "Main.Z", Vec::new(alloc), Vec::new(alloc))?;
    let before = vec![in alloc; (Mult::Many, main_family(alloc, 0))]?;
    let successor = constructor(alloc, 2, "Main.S", before, Vec::new(alloc))?;
    plain_family(alloc, "Main.Nat", vec![in alloc; zero, successor]?)
}

fn boxes(alloc: Global) -> Result<Family, Fail> {
    let content = vec![in alloc; (Mult::One, Term::IntTy)]?;
    let make = constructor(alloc, 5, "Main.MkBox", content, Vec::new(alloc))?;
    Ok(Family {
        id: item(4),
        ..plain_family(alloc, "Main.Box", vec![in alloc; make]?)?
    })
}

fn voids(alloc: Global) -> Result<Family, Fail> {
    Ok(Family {
        id: item(6),
        ..plain_family(alloc, "Main.Void", Vec::new(alloc))?
    })
}

pub fn successor(alloc: Global, n: Term) -> Made
    ensures { IfOk result (λ t. term t ≡ s (term n)) }
{
    let con = ConId {
        family: item(0),
        place: 1,
    };
    Ok(Term::Con(con, Vec::new(alloc), vec![in alloc; n]?))
}

pub fn sum(alloc: Global, n: Term, m: Term) -> Made
    ensures { IfOk result (λ t. term t ≡ plus_of (term n) (term m)) }
{
    let inner = Term::app(alloc, Mult::Many, Term::Def(item(3)), n)?;
    Term::app(alloc, Mult::Many, inner, m)
}

/// The sum of variables 1 and 0, by a match on variable 1.
fn sum_by_cases(alloc: Global) -> Made
    ensures { IfOk result (λ t. term t ≡ node (Form.case ω (item_of 0) 0 1 (0 ∷ 1 ∷ []))
        (nat ▸ var 0 ▸ s (plus_of (var 0) (var 1)) ▸ var 1 ▸ ε)) }
{
    let next = successor(alloc, sum(alloc, Term::Var(0), Term::Var(1))?)?;
    let case = Case {
        mult: Mult::Many,
        family: item(0),
        params: Vec::new(alloc),
        indices: 0,
        motive: Term::Fam(item(0), Vec::new(alloc)),
        branches: vec![in alloc; branch(0, Term::Var(0)), branch(1, next)]?,
        scrutinee: Term::Var(1),
    };
    Ok(Term::Case(Box::new(alloc, case)?))
}

fn plus_body(alloc: Global) -> Made
    ensures { IfOk result (λ t. term t ≡ body_of_plus) }
{
    let sum = sum_by_cases(alloc)?;
    let inner = Term::lam(alloc, Mult::Many, Term::Fam(item(0), Vec::new(alloc)), sum)?;
    Term::lam(
        alloc,
        Mult::Many,
        Term::Fam(item(0), Vec::new(alloc)),
        inner,
    )
}

fn add_sums(alloc: Global, globals: &mut Globals) -> Result<(), Fail> {
    let inner = Term::pi(
        alloc,
        Mult::Many,
        main_family(alloc, 0),
        main_family(alloc, 0),
    )?;
    let ty = Term::pi(alloc, Mult::Many, main_family(alloc, 0), inner)?;
    define_at(alloc, globals, 3, Mult::Many, ty, plus_body(alloc)?)
}

fn add_types(alloc: Global, globals: &mut Globals) -> Result<(), Fail> {
    for number in 8..10 {
        define_at(
            alloc,
            globals,
            number,
            Mult::Many,
            Term::Sort(0),
            Term::Def(item(number)),
        )?;
    }
    define_at(alloc, globals, 11, Mult::Many, Term::Sort(0), Term::IntTy)?;
    for number in 12..22 {
        define_at(
            alloc,
            globals,
            number,
            Mult::Many,
            Term::Sort(0),
            Term::Def(item(number - 1)),
        )?;
    }
    Ok(())
}

/// The program.
pub fn program(alloc: Global) -> Result<Globals, Fail> {
    let mut globals = Globals::prim(alloc)?;
    add(alloc, &mut globals, numbers(alloc)?)?;
    add(alloc, &mut globals, boxes(alloc)?)?;
    add(alloc, &mut globals, voids(alloc)?)?;
    add_sums(alloc, &mut globals)?;
    define_at(
        alloc,
        &mut globals,
        7,
        Mult::Zero,
        Term::IntTy,
        Term::Lit(Lit::Int(3)),
    )?;
    add_types(alloc, &mut globals)?;
    Ok(globals)
}
