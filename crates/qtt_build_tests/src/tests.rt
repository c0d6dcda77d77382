//! Builds over vaults in memory, with any number of jobs.

use crate::builds::{Stored, outcome_for_all};
use std::test::Fail;

/// A module, and one that imports it.
const TWO_MODULES: [Stored<'static>; 2] = [
    Stored {
        name: "A",
        text: "module A\ninc : Int -> Int\ninc x = addInt x 1\n",
    },
    Stored {
        name: "Main",
        text: "module Main\nimport A\nmain : IO Unit\nmain = putLine (showInt (inc 41))\n",
    },
];

#[test]
fn modules_are_built_by_rank_and_name(rt: HostRuntime) -> Result<(), Fail> {
    let answer = outcome_for_all(&rt, rt.alloc(), &TWO_MODULES, "Main")?;
    assert_eq!(rt; answer.as_str(), "A 1; Main 1; root 1");
    Ok(())
}

/// Two modules of one rank that are refused.
const TWO_WRONG: [Stored<'static>; 3] = [
    Stored {
        name: "Main",
        text: "module Main\nimport P\nimport Q\n",
    },
    Stored {
        name: "P",
        text: "module P\nx : Int\nx = y\n",
    },
    Stored {
        name: "Q",
        text: "module Q\nx : Int\nx = \"a\"\n",
    },
];

#[test]
fn the_first_refusal_of_a_rank_is_told(rt: HostRuntime) -> Result<(), Fail> {
    let answer = outcome_for_all(&rt, rt.alloc(), &TWO_WRONG, "Main")?;
    assert_eq!(rt; answer.as_str(), "P:3:5: 10 Unbound y");
    Ok(())
}

/// A ring of three modules.
const ROUND: [Stored<'static>; 3] = [
    Stored {
        name: "A",
        text: "module A\nimport B\n",
    },
    Stored {
        name: "B",
        text: "module B\nimport C\n",
    },
    Stored {
        name: "C",
        text: "module C\nimport A\n",
    },
];

#[test]
fn rings_and_missing_modules_are_told(rt: HostRuntime) -> Result<(), Fail> {
    let rows = [
        ("A", "A:2:1: 33 Cycle A B C"),
        ("B", "A:2:1: 33 Cycle A B C"),
        ("C", "A:2:1: 33 Cycle A B C"),
        ("Gone", "no module Gone"),
    ];
    for (root, wanted) in rows {
        let answer = outcome_for_all(&rt, rt.alloc(), &ROUND, root)?;
        assert_eq!(rt; answer.as_str(), wanted, "of {root}");
    }
    Ok(())
}
