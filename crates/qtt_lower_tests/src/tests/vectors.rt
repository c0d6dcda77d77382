//! Addition of numbers, and vectors put one behind the other.

use super::fixtures::{add_family, applied, case, define, functions, listed};
use qtt_programs::terms::{branch, item};
use qtt_term::{ConId, Globals, Term};
use qtt_usage::mult::Mult;
use std::alloc::Global;
use std::test::Fail;

fn plus(alloc: Global, n: Term, m: Term) -> Result<Term, Fail> {
    let args = vec![in alloc; (Mult::Many, n), (Mult::Many, m)]?;
    applied(alloc, Term::Def(item(3)), args)
}

/// `plus Z m = m; plus (S n) m = S (plus n m)`.
fn plus_body(alloc: Global) -> Result<Term, Fail> {
    let successor = ConId {
        family: item(0),
        place: 1,
    };
    let sum = plus(alloc, Term::Var(0), Term::Var(1))?;
    let next = Term::Con(successor, Vec::new(alloc), vec![in alloc; sum]?);
    let branches = vec![in alloc; branch(0, Term::Var(0)), branch(1, next)]?;
    let matched = case(alloc, Mult::Many, item(0), Term::Var(1), branches)?;
    functions(alloc, &[Mult::Many, Mult::Many], matched)
}

/// `append a k n xs ys` under the fields k, x and xs of the first vector and the second vector ys.
fn rest(alloc: Global) -> Result<Term, Fail> {
    let args = vec![in alloc;
        (Mult::Zero, Term::Var(8)),
        (Mult::Zero, Term::Var(3)),
        (Mult::Zero, Term::Var(6)),
        (Mult::One, Term::Var(1)),
        (Mult::One, Term::Var(0)),
    ]?;
    applied(alloc, Term::Def(item(7)), args)
}

/// `append a _ n Nil ys = ys; append a _ n (Cons k x xs) ys = Cons (plus k n) x (append a k n xs
/// ys)`.
fn append_body(alloc: Global) -> Result<Term, Fail> {
    let longer = ConId {
        family: item(4),
        place: 1,
    };
    let length = plus(alloc, Term::Var(3), Term::Var(6))?;
    let fields = vec![in alloc; length, Term::Var(2), rest(alloc)?]?;
    let cons = Term::Con(longer, vec![in alloc; Term::Var(8)]?, fields);
    let nothing = functions(alloc, &[Mult::One], Term::Var(0))?;
    let something = functions(alloc, &[Mult::One], cons)?;
    let branches = vec![in alloc; branch(0, nothing), branch(3, something)]?;
    let matched = case(alloc, Mult::One, item(4), Term::Var(1), branches)?;
    let args = vec![in alloc; (Mult::One, Term::Var(0))]?;
    let mults = [Mult::Zero, Mult::Zero, Mult::Zero, Mult::One, Mult::One];
    functions(alloc, &mults, applied(alloc, matched, args)?)
}

fn vectors(alloc: Global) -> Result<Globals, Fail> {
    let mut globals = Globals::prim(alloc)?;
    add_family(alloc, &mut globals, 0, &[], &[Mult::Many])?;
    let plus = plus_body(alloc)?;
    define(alloc, &mut globals, 3, "Main.plus", Mult::Many, plus)?;
    add_family(
        alloc,
        &mut globals,
        4,
        &[],
        &[Mult::Zero, Mult::One, Mult::One],
    )?;
    let append = append_body(alloc)?;
    define(alloc, &mut globals, 7, "Main.append", Mult::Many, append)?;
    Ok(globals)
}

const VECTORS: &str = "block 0 Main.plus captured 0 takes 0
  closure 1 0
  return
block 1 Main.plus captured 0 takes 1
  local 0
  closure 2 1
  return
block 2 Main.plus captured 1 takes 1
  captured 0
  switch 2 4
  local 0
  return
  enter 0
  local 1
  call
  local 0
  call
  con 1 1
  return
block 3 Main.append captured 0 takes 0
  closure 4 0
  return
block 4 Main.append captured 0 takes 0
  closure 5 0
  return
block 5 Main.append captured 0 takes 0
  closure 6 0
  return
block 6 Main.append captured 0 takes 0
  closure 7 0
  return
block 7 Main.append captured 0 takes 1
  local 0
  closure 8 1
  return
block 8 Main.append captured 1 takes 1
  captured 0
  switch 2 4
  closure 9 0
  jump 8
  local 1
  local 2
  closure 10 2
  leave 2
  local 0
  tail-call
block 9 Main.append captured 0 takes 1
  local 0
  return
block 10 Main.append captured 2 takes 1
  captured 0
  enter 3
  force
  force
  force
  captured 1
  call
  local 0
  call
  con 1 2
  return
";

#[test]
fn vectors_are_lowered(rt: HostRuntime) -> Result<(), Fail> {
    let alloc = rt.alloc();
    let globals = vectors(alloc)?;
    assert_eq!(rt;
        listed(&rt, alloc, &globals, 64)?.as_slice(),
        VECTORS.as_bytes()
    );
    Ok(())
}
