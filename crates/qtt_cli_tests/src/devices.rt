//! Devices that fail.

use crate::calls::{Failing, Left, Stored, call, call_failing};
use qtt_edge::FailingPut;
use std::alloc::Global;
use std::test::Fail;
use std::thread::Threads;

pub const TWO_LINES: &str = "module Main
main : IO Unit
main = do
  putLine \"a\"
  putLine \"b\"
";

pub const HANDLES: &str = "module Main
main : IO Unit
main = do
  h <- open \"a\"
  h2 <- write h \"x\"
  h3 <- write h2 \"y\"
  close h3
";

pub const TRAP_BEHIND_OPEN: &str = "module Main
main : IO Unit
main = do
  h <- open \"a\"
  h2 <- write h (showInt (divInt 1 0))
  close h2
";

const ECHO: &str = "module Main
step : Line -> IO Unit
main : IO Unit
main = do
  l <- getLine
  step l
step Eof = pure MkUnit
step (Got s) = do
  putLine s
  main
";

/// A run of the module Main of this text.
pub fn run_failing<R: Threads + Sync>(
    rt: &R,
    alloc: Global,
    text: &str,
    input: &[u8],
    failing: Failing,
) -> Result<Left, Fail> {
    let modules = [Stored { name: "Main", text }];
    call_failing(rt, alloc, &modules, &["run", "Main"], input, failing)
}

#[test]
fn a_failing_vault_is_told(rt: HostRuntime) -> Result<(), Fail> {
    let mut failing = Failing::none(rt.alloc());
    failing.reads.push(0)?;
    let left = run_failing(&rt, rt.alloc(), TWO_LINES, b"", failing)?;
    assert!(rt; left.is(74, b"", b"vault failed\n"));
    Ok(())
}

#[test]
fn a_failing_output_is_told(rt: HostRuntime) -> Result<(), Fail> {
    let mut failing = Failing::none(rt.alloc());
    failing.puts.push(FailingPut { call: 1, taken: 0 })?;
    let left = run_failing(&rt, rt.alloc(), TWO_LINES, b"", failing)?;
    assert!(rt; left.is(74, b"a\n", b"output failed\n"));
    Ok(())
}

#[test]
fn a_failing_input_is_told(rt: HostRuntime) -> Result<(), Fail> {
    let mut failing = Failing::none(rt.alloc());
    failing.pulls.push(0)?;
    let left = run_failing(&rt, rt.alloc(), ECHO, b"a\n", failing)?;
    assert!(rt; left.is(74, b"", b"input failed\n"));
    Ok(())
}

#[test]
fn a_failing_tape_is_told(rt: HostRuntime) -> Result<(), Fail> {
    let mut failing = Failing::none(rt.alloc());
    failing.tapes.push(1)?;
    let left = run_failing(&rt, rt.alloc(), HANDLES, b"", failing)?;
    assert!(rt; left.is(74, b"", b"tape failed\n"));
    assert!(rt; left.has_tape("a", 0, true));
    Ok(())
}

#[test]
fn a_failing_err_changes_no_status(rt: HostRuntime) -> Result<(), Fail> {
    let mut failing = Failing::none(rt.alloc());
    failing.tellings.push(FailingPut { call: 0, taken: 3 })?;
    let left = run_failing(&rt, rt.alloc(), "", b"", failing)?;
    assert!(rt; left.is(1, b"", b"Mai"));
    Ok(())
}

#[test]
fn tapes_are_closed(rt: HostRuntime) -> Result<(), Fail> {
    let modules = [Stored {
        name: "Main",
        text: HANDLES,
    }];
    let words = ["run", "Main", "--steps", "14"];
    let left = call(&rt, rt.alloc(), &modules, &words, b"")?;
    assert!(rt; left.is(0, b"", b""));
    assert!(rt; left.has_tape("a", 2, false));
    Ok(())
}

#[test]
fn tapes_are_closed_after_a_trap(rt: HostRuntime) -> Result<(), Fail> {
    let modules = [Stored {
        name: "Main",
        text: TRAP_BEHIND_OPEN,
    }];
    let five = ["run", "Main", "--steps", "5"];
    let left = call(&rt, rt.alloc(), &modules, &five, b"")?;
    assert!(rt; left.is(2, b"", b"trap: division by zero\n"));
    assert!(rt; left.has_tape("a", 0, false));
    Ok(())
}

#[test]
fn open_tapes_stay_behind_the_bound(rt: HostRuntime) -> Result<(), Fail> {
    let modules = [Stored {
        name: "Main",
        text: TRAP_BEHIND_OPEN,
    }];
    let four = ["run", "Main", "--steps", "4"];
    let left = call(&rt, rt.alloc(), &modules, &four, b"")?;
    assert!(rt; left.is(3, b"", b"step bound reached\n"));
    assert!(rt; left.has_tape("a", 0, true));
    Ok(())
}
