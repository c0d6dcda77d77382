//! A vault of small modules, each of which is built by itself.

use crate::builds::{Stored, outcome_for_all};
use std::test::Fail;

/// Modules that import one another, some of them wrong.
const MODULES: [Stored<'static>; 25] = [
    Stored {
        name: "A",
        text: "module A\ninc : Int -> Int\ninc x = addInt x 1\n",
    },
    Stored {
        name: "B",
        text: "module B\ninc : Int -> Int\ninc x = addInt x 1\n",
    },
    Stored {
        name: "OverA",
        text: "module OverA\nimport A\nmain : IO Unit\nmain = putLine (showInt (inc 41))\n",
    },
    Stored {
        name: "OverOverA",
        text: "module OverOverA\nimport OverA\nmain : IO Unit\nmain = putLine (showInt (inc 41))\n",
    },
    Stored {
        name: "OverBoth",
        text: "module OverBoth\nimport A\nimport B\nmain : IO Unit\nmain = putLine (showInt (inc 41))\n",
    },
    Stored {
        name: "Qualified",
        text: "module Qualified\nimport A\nimport B\nmain : IO Unit\nmain = putLine (showInt (A.inc 41))\n",
    },
    Stored {
        name: "Repeated",
        text: "module Repeated\nimport Prim\nimport A\nimport A\nimport Prim\nx : Int\nx = inc 1\n",
    },
    Stored {
        name: "D",
        text: "module D\nimport A\n",
    },
    Stored {
        name: "C",
        text: "module C\nimport A\nimport D\n",
    },
    Stored {
        name: "Ranked",
        text: "module Ranked\nimport C\nimport B\n",
    },
    Stored {
        name: "X",
        text: "module X\nimport Y\n",
    },
    Stored {
        name: "Y",
        text: "module Y\nimport A\nimport X\n",
    },
    Stored {
        name: "OverRing",
        text: "module OverRing\nimport A\nimport Y\n",
    },
    Stored {
        name: "Itself",
        text: "module Itself\nimport A\nimport Itself\nimport Itself\n",
    },
    Stored {
        name: "P",
        text: "module P\nx : Int\nx = y\n",
    },
    Stored {
        name: "Q",
        text: "module Q\nx : Int\nx = \"a\"\n",
    },
    Stored {
        name: "ReadsQFirst",
        text: "module ReadsQFirst\nimport Q\nimport P\n",
    },
    Stored {
        name: "AboveQ",
        text: "module AboveQ\nimport Q\nx : Int\nx = y\n",
    },
    Stored {
        name: "WrongAndRing",
        text: "module WrongAndRing\nimport P\nimport Itself\n",
    },
    Stored {
        name: "RingAndGone",
        text: "module RingAndGone\nimport Itself\nimport Gone\n",
    },
    Stored {
        name: "Nats",
        text: "module Nats\ndata Nat : Type where\n  Z : Nat\n  S : Nat -> Nat\nplus : Nat -> Nat -> Nat\nplus Z m = m\nplus (S n) m = S (plus n m)\n",
    },
    Stored {
        name: "Twice",
        text: "module Twice\nimport Nats\ndata Two : Nat -> Nat -> Type where\n  MkTwo : (i : Nat) -> (j : Nat) -> Two i j\nf : (n : Nat) -> Two n n -> Int\nf n (MkTwo i j) = 1\n",
    },
    Stored {
        name: "Tied",
        text: "module Tied\nimport Nats\ndata Tie : Nat -> Type where\n  MkTie : Tie Z\ndata Over : Tie Z -> Type where\n  MkOver : (t : Tie Z) -> Over t\nf : Over MkTie -> Int\nf (MkOver t) = 1\n",
    },
    Stored {
        name: "Solved",
        text: "module Solved\nimport Nats\ndata Sum : Nat -> Type where\n  MkSum : (a : Nat) -> (b : Nat) -> Sum (plus a b)\nf : (n : Nat) -> Sum n -> Int\nf _ (MkSum Z b) = 0\nf (S k) (MkSum a b) = 1\n",
    },
    Stored {
        name: "Leaves",
        text: "module Leaves\nt : Bool -> Type\nt True = (1 x : Int) -> Int\nt False = Int -> Int\nf : (c : Bool) -> Bool -> t c -> Int\nf True False g = 0\nf c d g = g 3\n",
    },
];

/// A constructor pattern on the sum that solved an index, which is neither a constructor nor a
/// variable.
const SOLVED_LINE: &str =
    "Solved:7:3: 25 PatternStuck ((Nats.plus (Nats.S x4)) x3) = ((Nats.plus (Nats.S x4)) x3)";

/// Imports are direct; one that is repeated counts once, and one of Prim for nothing. A module that
/// is not there is told before a ring, a ring before what is wrong in a module, and of wrong
/// modules the first by rank and name, whichever is read first.
///
/// A variable that occurs twice in indices is not solved, nor is an index of a family that has
/// indices itself. A clause has a right side of its own at each leaf.
#[test]
fn small_builds_come_to_this(rt: HostRuntime) -> Result<(), Fail> {
    let rows = [
        ("A", "A 1; root 0"),
        ("OverA", "A 1; OverA 1; root 1"),
        ("Repeated", "A 1; Repeated 1; root 1"),
        ("Qualified", "A 1; B 1; Qualified 1; root 2"),
        ("Ranked", "A 1; B 1; D 0; C 0; Ranked 0; root 4"),
        ("OverOverA", "OverOverA:4:26: 10 Unbound inc"),
        ("OverBoth", "OverBoth:5:26: 11 Ambiguous inc"),
        ("RingAndGone", "no module Gone"),
        ("OverRing", "X:2:1: 33 Cycle X Y"),
        ("Itself", "Itself:3:1: 33 Cycle Itself"),
        ("WrongAndRing", "Itself:3:1: 33 Cycle Itself"),
        ("ReadsQFirst", "P:3:5: 10 Unbound y"),
        ("AboveQ", "Q:3:5: 16 TypeMismatch expected Int found String"),
        ("Nats", "Nats 1; root 0"),
        ("Twice", "Twice:6:5: 25 PatternStuck x2 = x0"),
        ("Tied", "Tied:8:3: 25 PatternStuck x1 = Tied.MkTie"),
        ("Solved", SOLVED_LINE),
        ("Leaves", "Leaves 2; root 0"),
    ];
    for (root, wanted) in rows {
        let answer = outcome_for_all(&rt, rt.alloc(), &MODULES, root)?;
        assert_eq!(rt; answer.as_str(), wanted, "of {root}");
    }
    Ok(())
}
