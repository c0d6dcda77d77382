//! Each kind of refusal that a text of one module can have, mostly twice, at places that are not
//! its first token.

use crate::calls::{Row, all_hold};
use std::test::Fail;

/// Faults of characters, texts, comments, numbers, names and indentation.
const TOKENS: [Row<'static>; 11] = [
    Row {
        text: "module Main\nx : Int\nx = 1 # 2\n",
        words: &["check", "Main"],
        input: b"",
        status: 1,
        out: "",
        err: "Main:3:7: 2 BadCharacter U+0023\n",
    },
    Row {
        text: "module Main\nx : Int -> In§t\n",
        words: &["check", "Main"],
        input: b"",
        status: 1,
        out: "",
        err: "Main:2:14: 2 BadCharacter U+00A7\n",
    },
    Row {
        text: "module Main\nx : String\nx = \"abc\n",
        words: &["check", "Main"],
        input: b"",
        status: 1,
        out: "",
        err: "Main:3:5: 3 OpenText\n",
    },
    Row {
        text: "module Main\nx : String\nx = putLine \"a\" \"b\n",
        words: &["check", "Main"],
        input: b"",
        status: 1,
        out: "",
        err: "Main:3:17: 3 OpenText\n",
    },
    Row {
        text: "module Main\nx : Int {- open\n",
        words: &["check", "Main"],
        input: b"",
        status: 1,
        out: "",
        err: "Main:2:9: 4 OpenComment\n",
    },
    Row {
        text: "module Main\nx : Int\nx = 1\n{- one {- two -}\n",
        words: &["check", "Main"],
        input: b"",
        status: 1,
        out: "",
        err: "Main:4:1: 4 OpenComment\n",
    },
    Row {
        text: "module Main\nx : Int\nx = addInt 1 99999999999999999999\n",
        words: &["check", "Main"],
        input: b"",
        status: 1,
        out: "",
        err: "Main:3:14: 5 NumberTooWide\n",
    },
    Row {
        text: "module Main\nxxxxxxxxxxxxxxxxxxxxxxxxxxxxxxxxxxxxxxxxxxxxxxxxxxxxxxxxxxxxxxxxxxxxxxxxxxxxxxxxxxxxxxxxxxxxxxxxxxxxxxxxxxxxxxxxxxxxxxxxxxxxxxxxxxxxxxxxxxxxxxxxxxxxxxxxxxxxxxxxxxxxxxxxxxxxxxxxxxxxxxxxxxxxxxxxxxxxxxxxxxxxxxxxxxxxxxxxxxxxxxxxxxxxxxxxxxxxxxxxxxxxxxxxxxxxxxxx : Int\n",
        words: &["check", "Main"],
        input: b"",
        status: 1,
        out: "",
        err: "Main:2:1: 6 NameTooLong\n",
    },
    Row {
        text: "module Main\nx : Int\nx = yyyyyyyyyyyyyyyyyyyyyyyyyyyyyyyyyyyyyyyyyyyyyyyyyyyyyyyyyyyyyyyyyyyyyyyyyyyyyyyyyyyyyyyyyyyyyyyyyyyyyyyyyyyyyyyyyyyyyyyyyyyyyyyyyyyyyyyyyyyyyyyyyyyyyyyyyyyyyyyyyyyyyyyyyyyyyyyyyyyyyyyyyyyyyyyyyyyyyyyyyyyyyyyyyyyyyyyyyyyyyyyyyyyyyyyyyyyyyyyyyyyyyyyyyyyyyyyyyyyyyyyyyyyyyyyyyyyyyyyyyyyyyyyyyyyyyyyyyyyy\n",
        words: &["check", "Main"],
        input: b"",
        status: 1,
        out: "",
        err: "Main:3:5: 6 NameTooLong\n",
    },
    Row {
        text: "  module Main\n x : Int\n",
        words: &["check", "Main"],
        input: b"",
        status: 1,
        out: "",
        err: "Main:2:2: 7 BadIndent\n",
    },
    Row {
        text: "  module Main\n  x : Int\n  x =\n 1\n",
        words: &["check", "Main"],
        input: b"",
        status: 1,
        out: "",
        err: "Main:4:2: 7 BadIndent\n",
    },
];

/// Faults of the grammar and of names.
const TREES: [Row<'static>; 9] = [
    Row {
        text: "module Main\nx : Int\nx = (((((((((((((((((((((((((((((((((((((((((((((((((((((((((((((((((((((((((((((((((((((((((((((((((((((((((((((((((((((((((((((((((((((((((((((((((((((((((((((((((((((((((((((((((((((((((((((((((((((((((1)))))))))))))))))))))))))))))))))))))))))))))))))))))))))))))))))))))))))))))))))))))))))))))))))))))))))))))))))))))))))))))))))))))))))))))))))))))))))))))))))))))))))))))))))))))))))))))))))))))))))\n",
        words: &["check", "Main"],
        input: b"",
        status: 1,
        out: "",
        err: "Main:3:205: 9 TooDeep\n",
    },
    Row {
        text: "module Main\nf : Int -> Int\nf (((((((((((((((((((((((((((((((((((((((((((((((((((((((((((((((((((((((((((((((((((((((((((((((((((((((((((((((((((((((((((((((((((((((((((((((((((((((((((((((((((((((((((((((((((((((((((((((((((((((((x))))))))))))))))))))))))))))))))))))))))))))))))))))))))))))))))))))))))))))))))))))))))))))))))))))))))))))))))))))))))))))))))))))))))))))))))))))))))))))))))))))))))))))))))))))))))))))))))))))))))) = x\n",
        words: &["check", "Main"],
        input: b"",
        status: 1,
        out: "",
        err: "Main:3:203: 9 TooDeep\n",
    },
    Row {
        text: "module Main\ndata N : Type where\n    Z : N\n  S : N -> N\n",
        words: &["check", "Main"],
        input: b"",
        status: 1,
        out: "",
        err: "Main:4:3: 8 Unexpected S\n",
    },
    Row {
        text: "module Main\nx : Int\nx = addInt 1 y\n",
        words: &["check", "Main"],
        input: b"",
        status: 1,
        out: "",
        err: "Main:3:14: 10 Unbound y\n",
    },
    Row {
        text: "module Main\nx : Int\nx : Int\n",
        words: &["check", "Main"],
        input: b"",
        status: 1,
        out: "",
        err: "Main:3:1: 12 Duplicate x\n",
    },
    Row {
        text: "module Main\ndata T : Type where\n  A : T\n  A : T\n",
        words: &["check", "Main"],
        input: b"",
        status: 1,
        out: "",
        err: "Main:4:3: 12 Duplicate A\n",
    },
    Row {
        text: "module Main\nf : Int -> Int -> Int\nf x x = x\n",
        words: &["check", "Main"],
        input: b"",
        status: 1,
        out: "",
        err: "Main:3:5: 12 Duplicate x\n",
    },
    Row {
        text: "module Main\nn : {0 a : Type} -> Int -> Int\nn x = x\ny : Int\ny = n 3\n",
        words: &["check", "Main"],
        input: b"",
        status: 1,
        out: "",
        err: "Main:5:5: 34 Unsolved a\n",
    },
    Row {
        text: "module Main\nn : {0 a : Type} -> Int\nn = 1\nx : Int\nx = addInt 1 n\n",
        words: &["check", "Main"],
        input: b"",
        status: 1,
        out: "",
        err: "Main:5:14: 34 Unsolved a\n",
    },
];

/// Premises on types, levels and families.
const TYPES: [Row<'static>; 9] = [
    Row {
        text: "module Main\ndata T : Type where\n  Mk : (T -> Int) -> T\n",
        words: &["check", "Main"],
        input: b"",
        status: 1,
        out: "",
        err: "Main:3:3: 13 NotPositive Mk 0\n",
    },
    Row {
        text: "module Main\ndata T : Type where\n  A : T\n  B : Int -> ((T -> Int) -> Int) -> T\n",
        words: &["check", "Main"],
        input: b"",
        status: 1,
        out: "",
        err: "Main:4:3: 13 NotPositive B 1\n",
    },
    Row {
        text: "module Main\nf : Int -> 3 -> Int\n",
        words: &["check", "Main"],
        input: b"",
        status: 1,
        out: "",
        err: "Main:2:12: 19 NotAType Int\n",
    },
    Row {
        text: "module Main\ndata T : Int where\n",
        words: &["check", "Main"],
        input: b"",
        status: 1,
        out: "",
        err: "Main:2:10: 19 NotAType Int\n",
    },
    Row {
        text: "module Main\ndata T : Type where\n  A : Type -> T\n",
        words: &["check", "Main"],
        input: b"",
        status: 1,
        out: "",
        err: "Main:3:7: 20 WrongLevel declared 0 found 1\n",
    },
    Row {
        text: "module Main\ndata T : Type 1 where\n  A : Int -> Type 1 -> T\n",
        words: &["check", "Main"],
        input: b"",
        status: 1,
        out: "",
        err: "Main:3:14: 20 WrongLevel declared 1 found 2\n",
    },
    Row {
        text: "module Main\ndata T : Type where\n  Mk : Int\n",
        words: &["check", "Main"],
        input: b"",
        status: 1,
        out: "",
        err: "Main:3:8: 22 NotAFamily Int\n",
    },
    Row {
        text: "module Main\ndata Nat : Type where\n  Z : Nat\n  S : Nat -> Nat\nx : Int\nx = Z\n",
        words: &["check", "Main"],
        input: b"",
        status: 1,
        out: "",
        err: "Main:6:5: 22 NotAFamily Int\n",
    },
    Row {
        text: "module Main\ndata Nat : Type where\n  Z : Nat\n  S : Nat -> Nat\nf : Int -> Nat\nf Z = Z\nf (S n) = n\n",
        words: &["check", "Main"],
        input: b"",
        status: 1,
        out: "",
        err: "Main:6:3: 22 NotAFamily Int\n",
    },
];

/// Premises on expressions.
const EXPRESSIONS: [Row<'static>; 11] = [
    Row {
        text: "module Main\nx : Int\nx = (\\y => y) 1\n",
        words: &["check", "Main"],
        input: b"",
        status: 1,
        out: "",
        err: "Main:3:6: 14 NeedsType\n",
    },
    Row {
        text: "module Main\nx : IO Unit\nx = do\n  y <- pure (\\z => z)\n  pure MkUnit\n",
        words: &["check", "Main"],
        input: b"",
        status: 1,
        out: "",
        err: "Main:4:8: 14 NeedsType\n",
    },
    Row {
        text: "module Main\nx : Int\nx = 1 2\n",
        words: &["check", "Main"],
        input: b"",
        status: 1,
        out: "",
        err: "Main:3:5: 15 NotAFunction Int\n",
    },
    Row {
        text: "module Main\nf : Int -> Int\nf y = y 1\n",
        words: &["check", "Main"],
        input: b"",
        status: 1,
        out: "",
        err: "Main:3:7: 15 NotAFunction Int\n",
    },
    Row {
        text: "module Main\nf : Int\nf = \\y => y\n",
        words: &["check", "Main"],
        input: b"",
        status: 1,
        out: "",
        err: "Main:3:5: 15 NotAFunction Int\n",
    },
    Row {
        text: "module Main\nx : (0 y : Int) -> Int\nx = \\(y : Int) => 1\n",
        words: &["check", "Main"],
        input: b"",
        status: 1,
        out: "",
        err: "Main:3:5: 17 WrongQuantity expected 0 found many\n",
    },
    Row {
        text: "module Main\ng : (1 x : Int) -> Int\ng = \\(0 x : Int) => 3\n",
        words: &["check", "Main"],
        input: b"",
        status: 1,
        out: "",
        err: "Main:3:5: 17 WrongQuantity expected 1 found 0\n",
    },
    Row {
        text: "module Main\n0 n : Int\nn = 1\nf : Int -> Int\nf x = addInt x n\n",
        words: &["check", "Main"],
        input: b"",
        status: 1,
        out: "",
        err: "Main:5:16: 23 ErasedUse Main.n\n",
    },
    Row {
        text: "module Main\nf : (0 x : Int) -> (y : Int) -> Int\nf x y = addInt y x\n",
        words: &["check", "Main"],
        input: b"",
        status: 1,
        out: "",
        err: "Main:3:18: 23 ErasedUse x0\n",
    },
    Row {
        text: "module Main\nx : IO Unit\nx = do\n  1\n  pure MkUnit\n",
        words: &["check", "Main"],
        input: b"",
        status: 1,
        out: "",
        err: "Main:4:3: 35 NotAnAction Int\n",
    },
    Row {
        text: "module Main\nx : Int\nx = do\n  putLine \"a\"\n  pure MkUnit\n",
        words: &["check", "Main"],
        input: b"",
        status: 1,
        out: "",
        err: "Main:3:5: 35 NotAnAction Int\n",
    },
];

/// Premises on clauses and on a main.
const CLAUSES: [Row<'static>; 12] = [
    Row {
        text: "module Main\ndata Nat : Type where\n  Z : Nat\n  S : Nat -> Nat\nf : Nat -> Nat\nf (S a b) = a\n",
        words: &["check", "Main"],
        input: b"",
        status: 1,
        out: "",
        err: "Main:6:3: 21 WrongArity expected 1 found 2\n",
    },
    Row {
        text: "module Main\ndata Nat : Type where\n  Z : Nat\n  S : Nat -> Nat\nf : Nat -> Nat\nf Z = Z\nf (S n) m = n\n",
        words: &["check", "Main"],
        input: b"",
        status: 1,
        out: "",
        err: "Main:7:1: 21 WrongArity expected 1 found 2\n",
    },
    Row {
        text: "module Main\ndata Nat : Type where\n  Z : Nat\n  S : Nat -> Nat\nplus : Nat -> Nat -> Nat\nplus Z m = m\nplus (S n) m = S (plus n m)\nf : (n : Nat) -> (m : Nat) -> Eq Nat (plus n m) Z -> Int\nf n m Refl = 1\n",
        words: &["check", "Main"],
        input: b"",
        status: 1,
        out: "",
        err: "Main:9:7: 25 PatternStuck ((Main.plus x0) x1) = Main.Z\n",
    },
    Row {
        text: "module Main\nf : (g : Int -> Int) -> Eq Int (g 1) 2 -> Int\nf g Refl = 1\n",
        words: &["check", "Main"],
        input: b"",
        status: 1,
        out: "",
        err: "Main:3:5: 25 PatternStuck (x0 1) = 2\n",
    },
    Row {
        text: "module Main\ndata Nat : Type where\n  Z : Nat\n  S : Nat -> Nat\nf : (n : Nat) -> (m : Nat) -> Eq Nat n m -> Int\nf n .(S n) Refl = 1\n",
        words: &["check", "Main"],
        input: b"",
        status: 1,
        out: "",
        err: "Main:6:5: 26 DotMismatch expected x0 found (Main.S x0)\n",
    },
    Row {
        text: "module Main\nf : (x : Int) -> (y : Int) -> Eq Int x y -> Int\nf x .(addInt x 0) Refl = 1\n",
        words: &["check", "Main"],
        input: b"",
        status: 1,
        out: "",
        err: "Main:3:5: 26 DotMismatch expected x0 found (addInt x0 0)\n",
    },
    Row {
        text: "module Main\ndata Nat : Type where\n  Z : Nat\n  S : Nat -> Nat\nf : (0 n : Nat) -> Int\nf Z = 1\nf (S m) = 2\n",
        words: &["check", "Main"],
        input: b"",
        status: 1,
        out: "",
        err: "Main:6:3: 27 ErasedMatch n\n",
    },
    Row {
        text: "module Main\ndata Nat : Type where\n  Z : Nat\n  S : Nat -> Nat\ndata B : Type where\n  Mk : (0 n : Nat) -> B\nf : B -> Int\nf (Mk Z) = 1\nf (Mk (S m)) = 2\n",
        words: &["check", "Main"],
        input: b"",
        status: 1,
        out: "",
        err: "Main:8:7: 27 ErasedMatch n\n",
    },
    Row {
        text: "module Main\nf : Bool -> Bool -> Int\nf True True = 1\nf False y = 2\n",
        words: &["check", "Main"],
        input: b"",
        status: 1,
        out: "",
        err: "Main:3:1: 28 Missing f True False\n",
    },
    Row {
        text: "module Main\nx : Int\nx = 1\ny : Int\n",
        words: &["check", "Main"],
        input: b"",
        status: 1,
        out: "",
        err: "Main:4:1: 29 NoClauses y\n",
    },
    Row {
        text: "module Main\ndata Nat : Type where\n  Z : Nat\n  S : Nat -> Nat\nf : Nat -> Int\nf n = 1\nf Z = 2\n",
        words: &["check", "Main"],
        input: b"",
        status: 1,
        out: "",
        err: "Main:7:1: 36 Unreachable f\n",
    },
    Row {
        text: "module Main\nf : Bool -> Bool -> Int\nf True x = 1\nf False y = 2\nf x True = 3\n",
        words: &["check", "Main"],
        input: b"",
        status: 1,
        out: "",
        err: "Main:5:1: 36 Unreachable f\n",
    },
];

/// What is run has a main, and no hole.
const MAINS: [Row<'static>; 4] = [
    Row {
        text: "module Main\nx : Int\nx = 1\nmain : IO Int\nmain = pure 1\n",
        words: &["run", "Main"],
        input: b"",
        status: 1,
        out: "",
        err: "Main:1:1: 30 WrongMain\n",
    },
    Row {
        text: "module Main\n0 main : IO Unit\nmain = pure MkUnit\n",
        words: &["run", "Main"],
        input: b"",
        status: 1,
        out: "",
        err: "Main:1:1: 30 WrongMain\n",
    },
    Row {
        text: "module Main\nf : Int -> Int\nf x = ?a\nmain : IO Unit\nmain = ?b\n",
        words: &["run", "Main"],
        input: b"",
        status: 1,
        out: "",
        err: "Main:3:7: 37 HasHoles a b\n",
    },
    Row {
        text: "module Main\nmain : IO Unit\nmain = do\n  putLine \"a\"\n  ?rest\n",
        words: &["run", "Main"],
        input: b"",
        status: 1,
        out: "",
        err: "Main:5:3: 37 HasHoles rest\n",
    },
];

#[test]
fn texts_have_no_other_tokens(rt: HostRuntime) -> Result<(), Fail> {
    assert!(rt; all_hold(&rt, rt.alloc(), &TOKENS)?);
    Ok(())
}

#[test]
fn texts_have_no_other_trees(rt: HostRuntime) -> Result<(), Fail> {
    assert!(rt; all_hold(&rt, rt.alloc(), &TREES)?);
    Ok(())
}

#[test]
fn types_are_as_the_rules_ask(rt: HostRuntime) -> Result<(), Fail> {
    assert!(rt; all_hold(&rt, rt.alloc(), &TYPES)?);
    Ok(())
}

#[test]
fn expressions_are_as_the_rules_ask(rt: HostRuntime) -> Result<(), Fail> {
    assert!(rt; all_hold(&rt, rt.alloc(), &EXPRESSIONS)?);
    Ok(())
}

#[test]
fn clauses_are_as_the_rules_ask(rt: HostRuntime) -> Result<(), Fail> {
    assert!(rt; all_hold(&rt, rt.alloc(), &CLAUSES)?);
    Ok(())
}

#[test]
fn what_is_run_has_a_main_and_no_hole(rt: HostRuntime) -> Result<(), Fail> {
    assert!(rt; all_hold(&rt, rt.alloc(), &MAINS)?);
    Ok(())
}
