//! Tables of rows of one module.

use crate::calls::{Row, all_hold};
use std::test::Fail;

/// Questions at their exact counts.
const QUESTIONS: [Row<'static>; 3] = [
    Row {
        text: "module Main\ndata Nat : Type where\n  Z : Nat\n  S : Nat -> Nat\nplus : Nat -> Nat -> Nat\nplus Z m = m\nplus (S n) m = S (plus n m)\nsame : (n : Nat) -> (m : Nat) -> Eq Nat (plus (S n) m) (S (plus n m))\nsame n m = Refl\n",
        words: &["check", "Main", "--budget", "4"],
        input: b"",
        status: 0,
        out: "checked Main 2\n",
        err: "",
    },
    Row {
        text: "module Main\ndata Nat : Type where\n  Z : Nat\n  S : Nat -> Nat\nplus : Nat -> Nat -> Nat\nplus Z m = m\nplus (S n) m = S (plus n m)\nsame : (n : Nat) -> Eq Nat (plus n Z) n\nsame n = Refl\n",
        words: &["check", "Main"],
        input: b"",
        status: 1,
        out: "",
        err: "Main:9:10: 16 TypeMismatch expected (Eq Main.Nat ((Main.plus x0) Main.Z) x0) found (Eq Main.Nat ((Main.plus x0) Main.Z) ((Main.plus x0) Main.Z))\n",
    },
    Row {
        text: "module Main\na1 : Type\na1 = Int\na2 : Type\na2 = a1\na3 : Type\na3 = a2\na4 : Type\na4 = a3\na5 : Type\na5 = a4\na6 : Type\na6 = a5\na7 : Type\na7 = a6\na8 : Type\na8 = a7\na9 : Type\na9 = a8\na10 : Type\na10 = a9\na11 : Type\na11 = a10\nx : a11\nx = 3\n",
        words: &["check", "Main", "--budget", "11"],
        input: b"",
        status: 0,
        out: "checked Main 12\n",
        err: "",
    },
];

/// Families that are not positive, too large, or matched with their indices.
const FAMILIES: [Row<'static>; 3] = [
    Row {
        text: "module Main\ndata Bad : Type where\n  Mk : (Bad -> Int) -> Bad\n",
        words: &["check", "Main"],
        input: b"",
        status: 1,
        out: "",
        err: "Main:3:3: 13 NotPositive Mk 0\n",
    },
    Row {
        text: "module Main\ndata Big : Type where\n  Mk : Type -> Big\n",
        words: &["check", "Main"],
        input: b"",
        status: 1,
        out: "",
        err: "Main:3:8: 20 WrongLevel declared 0 found 1\n",
    },
    Row {
        text: "module Main\ndata Nat : Type where\n  Z : Nat\n  S : Nat -> Nat\ndata Vect (a : Type) : Nat -> Type where\n  Nil : Vect a Z\n  Cons : (0 k : Nat) -> (1 x : a) -> (1 xs : Vect a k) -> Vect a (S k)\nhead : (0 a : Type) -> (0 n : Nat) -> Vect a (S n) -> a\nhead a n (Cons k x xs) = x\n",
        words: &["check", "Main"],
        input: b"",
        status: 0,
        out: "checked Main 1\n",
        err: "",
    },
];

/// Clauses that overlap, are lacking, are never reached, or have dots.
const CLAUSES: [Row<'static>; 8] = [
    Row {
        text: "module Main\nf : Bool -> Bool -> Int\nf True b = 1\nf a True = 2\nf a b = 3\nmain : IO Unit\nmain = putLine (showInt (f True True))\n",
        words: &["run", "Main", "--steps", "7"],
        input: b"",
        status: 0,
        out: "1\n",
        err: "",
    },
    Row {
        text: "module Main\nf : Bool -> Bool -> Int\nf True b = 1\nf a True = 2\nf a b = 3\nmain : IO Unit\nmain = putLine (showInt (f True True))\n",
        words: &["run", "Main", "--steps", "6"],
        input: b"",
        status: 3,
        out: "",
        err: "step bound reached\n",
    },
    Row {
        text: "module Main\nf : Bool -> Int\nf x = 1\nf True = 2\n",
        words: &["check", "Main"],
        input: b"",
        status: 1,
        out: "",
        err: "Main:4:1: 36 Unreachable f\n",
    },
    Row {
        text: "module Main\ndata Nat : Type where\n  Z : Nat\n  S : Nat -> Nat\npred : Nat -> Nat\npred (S n) = n\n",
        words: &["check", "Main"],
        input: b"",
        status: 1,
        out: "",
        err: "Main:6:1: 28 Missing pred Z\n",
    },
    Row {
        text: "module Main\ndata Nat : Type where\n  Z : Nat\n  S : Nat -> Nat\npartial pred : Nat -> Nat\npred (S n) = n\n",
        words: &["check", "Main"],
        input: b"",
        status: 0,
        out: "checked Main 1\n",
        err: "",
    },
    Row {
        text: "module Main\ndata Nat : Type where\n  Z : Nat\n  S : Nat -> Nat\nf : (n : Nat) -> (m : Nat) -> (p : Eq Nat n m) -> Int\nf n .(n) Refl = 1\n",
        words: &["check", "Main"],
        input: b"",
        status: 0,
        out: "checked Main 1\n",
        err: "",
    },
    Row {
        text: "module Main\ndata Nat : Type where\n  Z : Nat\n  S : Nat -> Nat\nf : (n : Nat) -> (m : Nat) -> (p : Eq Nat n m) -> Int\nf n .(Z) Refl = 1\n",
        words: &["check", "Main"],
        input: b"",
        status: 1,
        out: "",
        err: "Main:6:5: 26 DotMismatch expected x0 found Main.Z\n",
    },
    Row {
        text: "module Main\nboth : (1 a : Bool) -> (1 b : Bool) -> Bool\nboth True b = b\nboth False True = False\nboth False False = False\n",
        words: &["check", "Main"],
        input: b"",
        status: 0,
        out: "checked Main 1\n",
        err: "",
    },
];

/// Matches on an equality, and on what is marked 0.
const DELETIONS: [Row<'static>; 3] = [
    Row {
        text: "module Main\nf : (0 a : Type) -> (0 x : a) -> (p : Eq a x x) -> Int\nf a x Refl = 1\n",
        words: &["check", "Main"],
        input: b"",
        status: 0,
        out: "checked Main 1\n",
        err: "",
    },
    Row {
        text: "module Main\ng : (0 b : Bool) -> Int\ng True = 1\ng False = 0\n",
        words: &["check", "Main"],
        input: b"",
        status: 1,
        out: "",
        err: "Main:3:3: 27 ErasedMatch b\n",
    },
    Row {
        text: "module Main\ndata Nat : Type where\n  Z : Nat\n  S : Nat -> Nat\ng : (n : Nat) -> (p : Eq Nat n (S n)) -> Int\ng n Refl = 1\n",
        words: &["check", "Main"],
        input: b"",
        status: 1,
        out: "",
        err: "Main:6:5: 25 PatternStuck x0 = (Main.S x0)\n",
    },
];

/// Handles that are used once, never, or twice.
const LINEAR: [Row<'static>; 4] = [
    Row {
        text: "module Main\nmain : IO Unit\nmain = do\n  h <- open \"a\"\n  pure MkUnit\n",
        words: &["run", "Main"],
        input: b"",
        status: 1,
        out: "",
        err: "Main:4:3: 18 WrongUsage h declared 1 used 0\n",
    },
    Row {
        text: "module Main\nmain : IO Unit\nmain = do\n  h <- open \"a\"\n  close h\n  close h\n",
        words: &["run", "Main"],
        input: b"",
        status: 1,
        out: "",
        err: "Main:4:3: 18 WrongUsage h declared 1 used many\n",
    },
    Row {
        text: "module Main\nmain : IO Unit\nmain = do\n  h <- open \"a\"\n  let f : Unit -> IO Unit = \\u => close h\n  f MkUnit\n",
        words: &["run", "Main"],
        input: b"",
        status: 1,
        out: "",
        err: "Main:4:3: 18 WrongUsage h declared 1 used many\n",
    },
    Row {
        text: "module Main\nmain : IO Unit\nmain = do\n  h <- open \"a\"\n  let 1 f : Unit -> IO Unit = \\u => close h\n  f MkUnit\n",
        words: &["run", "Main"],
        input: b"",
        status: 0,
        out: "",
        err: "",
    },
];

/// Numbers that wrap, or are too wide; and implicit arguments that are not found.
const NUMBERS: [Row<'static>; 6] = [
    Row {
        text: "module Main\nmain : IO Unit\nmain = putLine (showInt (divInt -9223372036854775808 -1))\n",
        words: &["run", "Main"],
        input: b"",
        status: 0,
        out: "-9223372036854775808\n",
        err: "",
    },
    Row {
        text: "module Main\nmain : IO Unit\nmain = putLine (showInt (addInt 9223372036854775807 1))\n",
        words: &["run", "Main"],
        input: b"",
        status: 0,
        out: "-9223372036854775808\n",
        err: "",
    },
    Row {
        text: "module Main\nx : Int\nx = 9223372036854775808\n",
        words: &["check", "Main"],
        input: b"",
        status: 1,
        out: "",
        err: "Main:3:5: 5 NumberTooWide\n",
    },
    Row {
        text: "module Main\nempty : {0 a : Type} -> Int\nempty = 0\nx : Int\nx = empty\n",
        words: &["check", "Main"],
        input: b"",
        status: 1,
        out: "",
        err: "Main:5:5: 34 Unsolved a\n",
    },
    Row {
        text: "module Main\nempty : {0 a : Type} -> Int\nempty = 0\nx : Int\nx = empty {Int}\n",
        words: &["check", "Main"],
        input: b"",
        status: 0,
        out: "checked Main 2\n",
        err: "",
    },
    Row {
        text: "module Main\nf : (1 x : Int) -> Bool -> Int\nf x True = ?a\nf x False = x\n",
        words: &["check", "Main"],
        input: b"",
        status: 0,
        out: "checked Main 1\nhole a Main:3:12 : Int\n  1 x x2 : Int\n",
        err: "",
    },
];

#[test]
fn questions_are_as_worked(rt: HostRuntime) -> Result<(), Fail> {
    assert!(rt; all_hold(&rt, rt.alloc(), &QUESTIONS)?);
    Ok(())
}

#[test]
fn families_are_as_worked(rt: HostRuntime) -> Result<(), Fail> {
    assert!(rt; all_hold(&rt, rt.alloc(), &FAMILIES)?);
    Ok(())
}

#[test]
fn clauses_are_as_worked(rt: HostRuntime) -> Result<(), Fail> {
    assert!(rt; all_hold(&rt, rt.alloc(), &CLAUSES)?);
    Ok(())
}

#[test]
fn deletions_are_as_worked(rt: HostRuntime) -> Result<(), Fail> {
    assert!(rt; all_hold(&rt, rt.alloc(), &DELETIONS)?);
    Ok(())
}

#[test]
fn handles_are_as_worked(rt: HostRuntime) -> Result<(), Fail> {
    assert!(rt; all_hold(&rt, rt.alloc(), &LINEAR)?);
    Ok(())
}

#[test]
fn numbers_are_as_worked(rt: HostRuntime) -> Result<(), Fail> {
    assert!(rt; all_hold(&rt, rt.alloc(), &NUMBERS)?);
    Ok(())
}
