//! Listings and cores, with any number of jobs.

use crate::calls::{all_hold, over_main};
use crate::rows::{BOXED, CORE, IDENTITY, IMPLICIT_VECTORS, VECTORS, done};
use std::test::Fail;

const CODE: &[&str] = &["code", "Main"];

const IDENTITY_CODE: &str = "block 0 Main.id captured 0 takes 0
  closure 1 0
  return
block 1 Main.id captured 0 takes 1
  local 0
  return
block 2 Main.main captured 0 takes 0
  enter 0
  int 3
  call
  prim showInt
  action putLine 1
  return
";

/// The field that is marked 0 is not in it.
const BOXED_CODE: &str = "block 0 Main.b captured 0 takes 0
  int 4
  con 0 1
  return
block 1 Main.use captured 0 takes 0
  closure 2 0
  return
block 2 Main.use captured 0 takes 1
  text \"boxed\"
  action putLine 1
  return
block 3 Main.main captured 0 takes 0
  enter 1
  enter 0
  tail-call
";

/// No length is in it: an argument that is marked 0 is a closure that takes nothing.
const VECTORS_CODE: &str = "block 0 Main.plus captured 0 takes 0
  closure 1 0
  return
block 1 Main.plus captured 0 takes 1
  local 0
  closure 2 1
  return
block 2 Main.plus captured 1 takes 1
  captured 0
  switch 2 4
  local 0
  return
  enter 0
  local 1
  call
  local 0
  call
  con 1 1
  return
block 3 Main.append captured 0 takes 0
  closure 4 0
  return
block 4 Main.append captured 0 takes 0
  closure 5 0
  return
block 5 Main.append captured 0 takes 0
  closure 6 0
  return
block 6 Main.append captured 0 takes 0
  closure 7 0
  return
block 7 Main.append captured 0 takes 1
  local 0
  closure 8 1
  return
block 8 Main.append captured 1 takes 1
  captured 0
  switch 2 4
  closure 9 0
  jump 8
  local 1
  local 2
  closure 10 2
  leave 2
  local 0
  tail-call
block 9 Main.append captured 0 takes 1
  local 0
  return
block 10 Main.append captured 2 takes 1
  captured 0
  enter 3
  force
  force
  force
  captured 1
  call
  local 0
  call
  con 1 2
  return
block 11 Main.total captured 0 takes 0
  closure 12 0
  return
block 12 Main.total captured 0 takes 0
  closure 13 0
  return
block 13 Main.total captured 0 takes 1
  local 0
  switch 2 4
  int 0
  return
  local 1
  enter 11
  force
  local 2
  call
  prim addInt
  return
block 14 Main.main captured 0 takes 0
  enter 11
  force
  enter 3
  force
  force
  force
  int 4
  int 5
  con 0 0
  con 1 2
  con 1 2
  call
  int 6
  con 0 0
  con 1 2
  call
  call
  prim showInt
  action putLine 1
  return
";

#[test]
fn listings_are_put(rt: HostRuntime) -> Result<(), Fail> {
    let rows = [
        done(IDENTITY, CODE, IDENTITY_CODE),
        done(BOXED, CODE, BOXED_CODE),
        done(VECTORS, CODE, VECTORS_CODE),
        done(IMPLICIT_VECTORS, CODE, VECTORS_CODE),
        done(VECTORS, &["code", "Main", "--jobs", "2"], VECTORS_CODE),
        done(VECTORS, &["code", "Main", "--jobs", "8"], VECTORS_CODE),
        done(VECTORS, &["code", "Main", "--jobs", "64"], VECTORS_CODE),
    ];
    assert!(rt; all_hold(&rt, rt.alloc(), &rows)?);
    Ok(())
}

const DELETION: &str = "module Main
f : (0 a : Type) -> (0 x : a) -> (p : Eq a x x) -> Int
f a x Refl = 1
";

const DELETION_CORE: &str =
    "Main.f : ((0 x0 : Type 0) -> ((0 x1 : x0) -> ((x2 : (Eq x0 x1 x1)) -> Int))) = (\\(0 x0 : Type 0) => (\\(0 x1 : x0) => (\\(x2 : (Eq x0 x1 x1)) => (delete many x2 motive x3 => Int { 1 }))))\n";

#[test]
fn cores_are_as_worked(rt: HostRuntime) -> Result<(), Fail> {
    let alloc = rt.alloc();
    assert!(rt; all_hold(&rt, alloc, &[done(DELETION, CORE, DELETION_CORE)])?);
    // Arguments that are filled in leave no trace in the core.
    let written = over_main(&rt, alloc, VECTORS, CORE)?;
    let filled = over_main(&rt, alloc, IMPLICIT_VECTORS, CORE)?;
    assert!(rt; written.status == 0 && written.out.bytes.starts_with(b"Main.plus : "));
    assert!(rt; filled.is(0, written.out.bytes.as_slice(), b""));
    Ok(())
}
