//! The number of jobs changes nothing.

use crate::builds::{SEVEN, leaves, module};
use crate::calls::{Row, all_hold};
use crate::rows::{ECHO, IMPLICIT_VECTORS, VECTORS, done};
use std::test::Fail;

/// What `gen 40` puts.
const FORTY: &str = "-8197311298168428571
-2726361841592810611
1528821069077114469
2136704342029960909
modules 161
definitions 321
contractions 658
";

#[test]
fn generated_modules_are_as_counted(rt: HostRuntime) -> Result<(), Fail> {
    let alloc = rt.alloc();
    assert!(rt; leaves(&rt, alloc, &[], &["gen", "40"], 0, FORTY, "")?);
    for jobs in ["1", "2", "8", "64"] {
        let seven = ["gen", "7", "--jobs", jobs];
        assert!(rt;
            leaves(&rt, alloc, &[], &seven, 0, SEVEN, "")?,
            "with {jobs}"
        );
        let exact = ["gen", "7", "--jobs", jobs, "--steps", "130"];
        assert!(rt;
            leaves(&rt, alloc, &[], &exact, 0, SEVEN, "")?,
            "with {jobs}"
        );
        // The last contraction puts the fourth line, and behind fewer nothing is counted.
        let fewer = ["gen", "7", "--jobs", jobs, "--steps", "129"];
        let three = "26738\n27723\n28488\n";
        let bound = "step bound reached\n";
        assert!(rt;
            leaves(&rt, alloc, &[], &fewer, 3, three, bound)?,
            "with {jobs}"
        );
    }
    Ok(())
}

#[test]
fn jobs_change_nothing(rt: HostRuntime) -> Result<(), Fail> {
    let alloc = rt.alloc();
    for jobs in ["1", "2", "8", "64"] {
        let run = ["run", "Main", "--jobs", jobs];
        let check = ["check", "Main", "--jobs", jobs];
        let echo = Row {
            text: ECHO,
            words: &run,
            input: b"a",
            status: 0,
            out: "a\n",
            err: "",
        };
        let rows = [
            echo,
            done(VECTORS, &run, "15\n"),
            done(IMPLICIT_VECTORS, &run, "15\n"),
            done(VECTORS, &check, "checked Main 4\n"),
            done(IMPLICIT_VECTORS, &check, "checked Main 4\n"),
        ];
        assert!(rt; all_hold(&rt, alloc, &rows)?, "with {jobs}");
    }
    Ok(())
}

/// Two modules of a rank are refused, and the one of the first name is told; of a module that is
/// read earlier and one of a lower rank, the latter.
#[test]
fn jobs_change_no_refusal(rt: HostRuntime) -> Result<(), Fail> {
    let alloc = rt.alloc();
    let wrong = "module Main\nimport P\nimport Q\nx : Int\nx = z\n";
    let modules = [
        module("Main", wrong),
        module("P", "module P\nimport Q\nx : Int\nx = y\n"),
        module("Q", "module Q\nx : Int\nx = \"a\"\n"),
    ];
    let lower = "Q:3:5: 16 TypeMismatch expected Int found String\n";
    let beside = [
        module("Main", wrong),
        module("P", "module P\nx : Int\nx = \"a\"\n"),
        module("Q", "module Q\nx : Int\nx = y\n"),
    ];
    let first = "P:3:5: 16 TypeMismatch expected Int found String\n";
    for jobs in ["1", "2", "8", "64"] {
        let words = ["check", "Main", "--jobs", jobs];
        assert!(rt;
            leaves(&rt, alloc, &modules, &words, 1, "", lower)?,
            "with {jobs}"
        );
        assert!(rt;
            leaves(&rt, alloc, &beside, &words, 1, "", first)?,
            "with {jobs}"
        );
    }
    Ok(())
}
