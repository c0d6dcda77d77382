//! What stands on the tapes behind a call.

use crate::calls::{Failing, Left, over_main};
use crate::devices::{HANDLES, TRAP_BEHIND_OPEN, run_failing};
use crate::rows::{BOUND, CHECK, HOLE_BEHIND_HANDLES, RUN};
use std::alloc::{AllocError, Global};
use std::test::Fail;
use std::thread::Threads;

/// What a call over the module Main of this text leaves, where no device fails.
#[derive(Clone, Copy)]
struct TapeRow<'a> {
    text: &'a str,
    words: &'a [&'a str],
    status: u8,
    err: &'a str,
    tapes: &'a str,
}

/// The tapes that are left: of each its name, whether it is open, and its lines.
fn shown(alloc: Global, left: &Left) -> Result<String, AllocError> {
    let mut all = String::new(alloc);
    for tape in &left.tapes.tapes {
        all.push_str(tape.name.as_str())?;
        all.push_str(if tape.is_open { " open" } else { " closed" })?;
        for line in &tape.lines {
            all.push(' ')?;
            all.push_str(line.as_str())?;
        }
        all.push(';')?;
    }
    Ok(all)
}

const UNUSED: &str = "module Main
main : IO Unit
main = do
  h <- open \"a\"
  pure MkUnit
";

const CLOSED_TWICE: &str = "module Main
main : IO Unit
main = do
  h <- open \"a\"
  close h
  close h
";

const CLOSED_TWICE_BEFORE_A_HOLE: &str = "module Main
main : IO Unit
main = do
  h <- open \"a\"
  close h
  close h
  ?r
";

const CLOSED_BY_MANY: &str = "module Main
main : IO Unit
main = do
  h <- open \"a\"
  let f : Unit -> IO Unit = \\u => close h
  f MkUnit
";

const CLOSED_BY_ONE: &str = "module Main
main : IO Unit
main = do
  h <- open \"a\"
  let 1 f : Unit -> IO Unit = \\u => close h
  f MkUnit
";

const UNUSED_TOLD: &str = "Main:4:3: 18 WrongUsage h declared 1 used 0\n";

const HOLE_TOLD: &str = "Main:6:3: 37 HasHoles rest\n";

const USED_MANY: &str = "Main:4:3: 18 WrongUsage h declared 1 used many\n";

/// What is refused has no tape.
fn refused<'a>(text: &'a str, words: &'a [&'a str], err: &'a str) -> TapeRow<'a> {
    TapeRow {
        text,
        words,
        status: 1,
        err,
        tapes: "",
    }
}

/// A run that leaves these tapes.
fn runs_to<'a>(text: &'a str, words: &'a [&'a str], status: u8, tapes: &'a str) -> TapeRow<'a> {
    let err = match status {
        2 => "trap: division by zero\n",
        3 => BOUND,
        _ => "",
    };
    TapeRow {
        text,
        words,
        status,
        err,
        tapes,
    }
}

/// Within so many steps.
const FOUR: &[&str] = &["run", "Main", "--steps", "4"];

const FIVE: &[&str] = &["run", "Main", "--steps", "5"];

const THIRTEEN: &[&str] = &["run", "Main", "--steps", "13"];

const FOURTEEN: &[&str] = &["run", "Main", "--steps", "14"];

#[test]
fn tapes_are_as_worked(rt: HostRuntime) -> Result<(), Fail> {
    let alloc = rt.alloc();
    let rows = [
        runs_to(HANDLES, RUN, 0, "a closed x y;"),
        runs_to(HANDLES, FOURTEEN, 0, "a closed x y;"),
        runs_to(HANDLES, THIRTEEN, 3, "a open x y;"),
        runs_to(CLOSED_BY_ONE, RUN, 0, "a closed;"),
        runs_to(TRAP_BEHIND_OPEN, RUN, 2, "a closed;"),
        runs_to(TRAP_BEHIND_OPEN, FIVE, 2, "a closed;"),
        runs_to(TRAP_BEHIND_OPEN, FOUR, 3, "a open;"),
        refused(UNUSED, RUN, UNUSED_TOLD),
        refused(CLOSED_TWICE, RUN, USED_MANY),
        refused(CLOSED_BY_MANY, RUN, USED_MANY),
        refused(CLOSED_TWICE_BEFORE_A_HOLE, RUN, USED_MANY),
        refused(CLOSED_TWICE_BEFORE_A_HOLE, CHECK, USED_MANY),
        refused(HOLE_BEHIND_HANDLES, RUN, HOLE_TOLD),
    ];
    for row in &rows {
        let left = over_main(&rt, alloc, row.text, row.words)?;
        assert!(rt; left.is(row.status, b"", row.err.as_bytes()));
        assert!(rt; shown(alloc, &left)?.as_str() == row.tapes);
    }
    Ok(())
}

/// What is left where one call on the tapes fails.
fn left_by_failing<R: Threads + Sync>(
    rt: &R,
    alloc: Global,
    text: &str,
    call: u64,
) -> Result<Left, Fail> {
    let mut failing = Failing::none(alloc);
    failing.tapes.push(call)?;
    run_failing(rt, alloc, text, b"", failing)
}

/// Each call on the tapes fails in turn: what was done before it stays. Another one is never made.
#[test]
fn each_call_on_a_tape_may_fail(rt: HostRuntime) -> Result<(), Fail> {
    let alloc = rt.alloc();
    let rows = [
        (HANDLES, 0, ""),
        (HANDLES, 1, "a open;"),
        (HANDLES, 2, "a open x;"),
        (HANDLES, 3, "a open x y;"),
        (TRAP_BEHIND_OPEN, 0, ""),
        (TRAP_BEHIND_OPEN, 1, "a open;"),
    ];
    for (text, call, tapes) in rows {
        let left = left_by_failing(&rt, alloc, text, call)?;
        assert!(rt; left.is(74, b"", b"tape failed\n"));
        assert!(rt; shown(alloc, &left)?.as_str() == tapes);
    }
    let left = left_by_failing(&rt, alloc, HANDLES, 4)?;
    assert!(rt; left.is(0, b"", b""));
    assert!(rt; shown(alloc, &left)?.as_str() == "a closed x y;");
    Ok(())
}
