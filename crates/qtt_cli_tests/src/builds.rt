//! Calls over several modules.

use crate::calls::{Stored, call};
use std::alloc::Global;
use std::test::Fail;
use std::thread::Threads;

pub fn module<'a>(name: &'a str, text: &'a str) -> Stored<'a> {
    Stored { name, text }
}

const A: &str = "module A\ninc : Int -> Int\ninc x = addInt x 1\n";

const B: &str = "module B\ninc : Int -> Int\ninc x = addInt x 1\n";

const MAIN_OVER_A: &str = "module Main
import A
main : IO Unit
main = putLine (showInt (inc 41))
";

const MAIN_OVER_BOTH: &str = "module Main
import A
import B
main : IO Unit
main = putLine (showInt (inc 41))
";

const MAIN_OVER_A_OF_BOTH: &str = "module Main
import A
import B
main : IO Unit
main = putLine (showInt (A.inc 41))
";

/// Whether a call over these modules leaves that.
pub fn leaves<R: Threads + Sync>(
    rt: &R,
    alloc: Global,
    modules: &[Stored],
    words: &[&str],
    status: u8,
    out: &str,
    err: &str,
) -> Result<bool, Fail> {
    let left = call(rt, alloc, modules, words, b"")?;
    Ok(left.is(status, out.as_bytes(), err.as_bytes()))
}

#[test]
fn imports_are_run(rt: HostRuntime) -> Result<(), Fail> {
    let alloc = rt.alloc();
    let modules = [module("Main", MAIN_OVER_A), module("A", A)];
    let six = ["run", "Main", "--steps", "6"];
    assert!(rt; leaves(&rt, alloc, &modules, &six, 0, "42\n", "")?);
    let five = ["run", "Main", "--steps", "5"];
    assert!(rt; leaves(&rt, alloc, &modules, &five, 3, "", "step bound reached\n")?);
    let check = ["check", "Main"];
    assert!(rt;
        leaves(
            &rt,
            alloc,
            &modules,
            &check,
            0,
            "checked A 1\nchecked Main 1\n",
            ""
        )?
    );
    Ok(())
}

#[test]
fn a_name_of_two_imports_is_ambiguous(rt: HostRuntime) -> Result<(), Fail> {
    let alloc = rt.alloc();
    let run = ["run", "Main"];
    let both = [
        module("Main", MAIN_OVER_BOTH),
        module("A", A),
        module("B", B),
    ];
    assert!(rt;
        leaves(
            &rt,
            alloc,
            &both,
            &run,
            1,
            "",
            "Main:5:26: 11 Ambiguous inc\n"
        )?
    );
    let one = [
        module("Main", MAIN_OVER_A_OF_BOTH),
        module("A", A),
        module("B", B),
    ];
    assert!(rt; leaves(&rt, alloc, &one, &run, 0, "42\n", "")?);
    Ok(())
}

#[test]
fn rings_and_lacking_modules_are_told(rt: HostRuntime) -> Result<(), Fail> {
    let alloc = rt.alloc();
    let ring = [
        module("A", "module A\nimport B\n"),
        module("B", "module B\nimport C\n"),
        module("C", "module C\nimport A\n"),
    ];
    let check = ["check", "A"];
    assert!(rt; leaves(&rt, alloc, &ring, &check, 1, "", "A:2:1: 33 Cycle A B C\n")?);
    let gone = ["run", "Gone"];
    assert!(rt; leaves(&rt, alloc, &ring, &gone, 66, "", "module Gone not found\n")?);
    Ok(())
}

#[test]
fn the_first_refusal_of_a_rank_is_told(rt: HostRuntime) -> Result<(), Fail> {
    let alloc = rt.alloc();
    let modules = [
        module("Main", "module Main\nimport P\nimport Q\n"),
        module("P", "module P\nx : Int\nx = y\n"),
        module("Q", "module Q\nx : Int\nx = \"a\"\n"),
    ];
    for jobs in ["1", "2", "8", "64"] {
        let words = ["check", "Main", "--jobs", jobs];
        assert!(rt; leaves(&rt, alloc, &modules, &words, 1, "", "P:3:5: 10 Unbound y\n")?);
    }
    Ok(())
}

const ONE: &str = "3\n4\n5\n6\nmodules 5\ndefinitions 9\ncontractions 34\n";

pub const SEVEN: &str = "26738
27723
28488
28597
modules 29
definitions 57
contractions 130
";

#[test]
fn generated_modules_are_run(rt: HostRuntime) -> Result<(), Fail> {
    let alloc = rt.alloc();
    assert!(rt; leaves(&rt, alloc, &[], &["gen", "1"], 0, ONE, "")?);
    assert!(rt; leaves(&rt, alloc, &[], &["gen", "7"], 0, SEVEN, "")?);
    assert!(rt;
        leaves(
            &rt,
            alloc,
            &[],
            &["gen", "007", "--jobs", "8"],
            0,
            SEVEN,
            ""
        )?
    );
    Ok(())
}
