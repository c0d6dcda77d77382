//! Words at their bounds.

use crate::builds::{leaves, module};
use crate::calls::all_hold;
use crate::rows::{HELLO, USAGE, done, told};
use std::test::Fail;

/// Words that run the module Main.
const ASKING: [&[&str]; 7] = [
    &["run", "Main", "--steps", "4000000000"],
    &["run", "Main", "--budget", "10000000"],
    &["run", "Main", "--jobs", "64"],
    &["--steps=0000000002", "run", "Main"],
    &["run", "--jobs", "1", "Main", "--budget=1"],
    &["--", "run", "Main"],
    &["run", "Main", "--"],
];

/// Words that ask for nothing.
const ASKING_NOTHING: [&[&str]; 27] = [
    &[],
    &["Main"],
    &["run", "Main", "Main"],
    &["run", "Main", "--steps"],
    &["run", "Main", "--steps", "0"],
    &["run", "Main", "--steps", "4000000001"],
    &["run", "Main", "--steps", "00000000002"],
    &["run", "Main", "--steps", "-5"],
    &["run", "Main", "--steps", "+5"],
    &["run", "Main", "--steps", ""],
    &["run", "Main", "--steps", "2x"],
    &["run", "Main", "--steps", "2", "--steps", "2"],
    &["run", "Main", "--budget", "0"],
    &["run", "Main", "--budget", "10000001"],
    &["run", "Main", "--jobs", "0"],
    &["run", "Main", "--jobs", "65"],
    &["run", "Main", "--fuel", "3"],
    &["run", "Main", "--help"],
    &["--version"],
    &["Run", "Main"],
    &["run", ""],
    &["run", "_"],
    &["run", "do"],
    &["run", "A..B"],
    &["gen", "Main"],
    &["gen", "0007"],
    &["gen", "-1"],
];

#[test]
fn words_have_bounds(rt: HostRuntime) -> Result<(), Fail> {
    let alloc = rt.alloc();
    for words in ASKING {
        assert!(rt;
            all_hold(&rt, alloc, &[done(HELLO, words, "hello\n")])?,
            "of {words:?}"
        );
    }
    for words in ASKING_NOTHING {
        assert!(rt;
            all_hold(&rt, alloc, &[told(HELLO, words, 64, USAGE)])?,
            "of {words:?}"
        );
    }
    Ok(())
}

/// A module is asked for by its whole name, and none is named as the one that is always there.
#[test]
fn names_are_those_of_headers(rt: HostRuntime) -> Result<(), Fail> {
    let alloc = rt.alloc();
    let text = "module A.B\nmain : IO Unit\nmain = do\n  putLine \"hello\"\n";
    let run = ["run", "A.B"];
    assert!(rt; leaves(&rt, alloc, &[module("A.B", text)], &run, 0, "hello\n", "")?);
    let refused = "A.B:1:8: 32 WrongModuleName expected A.B found B\n";
    let other = [module("A.B", "module B\n")];
    assert!(rt; leaves(&rt, alloc, &other, &run, 1, "", refused)?);
    let refused = "Prim:1:8: 32 WrongModuleName expected Prim found Prim\n";
    let prim = [module("Prim", "module Prim\n")];
    assert!(rt; leaves(&rt, alloc, &prim, &["run", "Prim"], 1, "", refused)?);
    Ok(())
}
