//! Texts that are run: refused first, trapped, or ended at their last contraction.

use crate::calls::{Row, all_hold};
use crate::rows::{BOUND, BOXED, IDENTITY, LOOP, RUN, done, told};
use std::test::Fail;

const QUOTIENT: &str = "module Main
main : IO Unit
main = putLine (showInt (divInt 1 0))
";

const REMAINDER: &str = "module Main
main : IO Unit
main = putLine (showInt (modInt 1 0))
";

/// A clause that is missing, as an argument that the function does not look at.
const PREDECESSOR: &str = "module Main
data Nat : Type where
  Z : Nat
  S : Nat -> Nat
partial pred : Nat -> Nat
pred (S n) = n
show : Nat -> IO Unit
show n = putLine \"shown\"
main : IO Unit
main = show (pred Z)
";

const PREDECESSOR_OF_ONE: &str = "module Main
data Nat : Type where
  Z : Nat
  S : Nat -> Nat
partial pred : Nat -> Nat
pred (S n) = n
show : Nat -> IO Unit
show n = putLine \"shown\"
main : IO Unit
main = show (pred (S Z))
";

#[test]
fn texts_are_refused_before_they_run(rt: HostRuntime) -> Result<(), Fail> {
    let too_wide = "module Main\nx : Int\nx = 9223372036854775808\n";
    let least = "module Main\nx : Int\nx = -9223372036854775809\n";
    let twice = "module Main\nf : Int -> Int\nf x x = 1\n";
    let rows = [
        told("", RUN, 1, "Main:1:1: 8 Unexpected end\n"),
        told(too_wide, RUN, 1, "Main:3:5: 5 NumberTooWide\n"),
        told(least, RUN, 1, "Main:3:5: 5 NumberTooWide\n"),
        told(twice, RUN, 1, "Main:3:5: 12 Duplicate x\n"),
        done(IDENTITY, RUN, "3\n"),
    ];
    assert!(rt; all_hold(&rt, rt.alloc(), &rows)?);
    Ok(())
}

#[test]
fn runs_trap_or_end(rt: HostRuntime) -> Result<(), Fail> {
    let rows = [
        told(QUOTIENT, RUN, 2, "trap: division by zero\n"),
        told(REMAINDER, RUN, 2, "trap: division by zero\n"),
        told(PREDECESSOR, RUN, 2, "trap: missing clause\n"),
        done(PREDECESSOR_OF_ONE, RUN, "shown\n"),
        told(BOXED, &["run", "Main", "--steps", "4"], 3, BOUND),
    ];
    assert!(rt; all_hold(&rt, rt.alloc(), &rows)?);
    Ok(())
}

/// A run that goes on behind so many steps, and what it has put by then.
fn going_on<'a>(words: &'a [&'a str], out: &'a str) -> Row<'a> {
    Row {
        text: LOOP,
        words,
        input: b"",
        status: 3,
        out,
        err: BOUND,
    }
}

/// The fourth contraction of the loop puts its first line, and the ninth its second.
#[test]
fn lines_are_put_at_their_steps(rt: HostRuntime) -> Result<(), Fail> {
    let rows = [
        going_on(&["run", "Main", "--steps", "3"], ""),
        going_on(&["run", "Main", "--steps", "4"], "x\n"),
        going_on(&["run", "Main", "--steps", "8"], "x\n"),
        going_on(&["run", "Main", "--steps", "9"], "x\nx\n"),
        going_on(&["run", "Main", "--steps", "13"], "x\nx\n"),
        going_on(&["run", "Main", "--steps", "14"], "x\nx\nx\n"),
    ];
    assert!(rt; all_hold(&rt, rt.alloc(), &rows)?);
    Ok(())
}
