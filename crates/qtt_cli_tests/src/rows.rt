//! Rows of one module.

use crate::calls::{Row, all_hold, holds};
use std::test::Fail;

pub const VECTORS: &str = "module Main
data Nat : Type where
  Z : Nat
  S : Nat -> Nat
plus : Nat -> Nat -> Nat
plus Z m = m
plus (S n) m = S (plus n m)
data Vect (a : Type) : Nat -> Type where
  Nil : Vect a Z
  Cons : (0 k : Nat) -> (1 x : a) -> (1 xs : Vect a k) -> Vect a (S k)
append : (0 a : Type) -> (0 m : Nat) -> (0 n : Nat) -> (1 xs : Vect a m) -> (1 ys : Vect a n) -> Vect a (plus m n)
append a _ n Nil ys = ys
append a _ n (Cons k x xs) ys = Cons (plus k n) x (append a k n xs ys)
total : (0 n : Nat) -> Vect Int n -> Int
total _ Nil = 0
total _ (Cons k x xs) = addInt x (total k xs)
main : IO Unit
main = putLine (showInt (total (plus (S (S Z)) (S Z)) (append Int (S (S Z)) (S Z) (Cons (S Z) 4 (Cons Z 5 Nil)) (Cons Z 6 Nil))))
";

pub const IMPLICIT_VECTORS: &str = "module Main
data Nat : Type where
  Z : Nat
  S : Nat -> Nat
plus : Nat -> Nat -> Nat
plus Z m = m
plus (S n) m = S (plus n m)
data Vect (a : Type) : Nat -> Type where
  Nil : Vect a Z
  Cons : {0 k : Nat} -> (1 x : a) -> (1 xs : Vect a k) -> Vect a (S k)
append : {0 a : Type} -> {0 m : Nat} -> {0 n : Nat} -> (1 xs : Vect a m) -> (1 ys : Vect a n) -> Vect a (plus m n)
append Nil ys = ys
append (Cons x xs) ys = Cons x (append xs ys)
total : {0 n : Nat} -> Vect Int n -> Int
total Nil = 0
total (Cons x xs) = addInt x (total xs)
main : IO Unit
main = putLine (showInt (total (append (Cons 4 (Cons 5 Nil)) (Cons 6 Nil))))
";

pub const HELLO: &str = "module Main
main : IO Unit
main = do
  putLine \"hello\"
";

pub const IDENTITY: &str = "module Main
id : (1 x : Int) -> Int
id x = x
main : IO Unit
main = putLine (showInt (id 3))
";

const LOOPY: &str = "module Main
loopy : (0 u : Unit) -> Int
loopy u = loopy u
use : ((0 u : Unit) -> Int) -> IO Unit
use f = putLine \"ok\"
main : IO Unit
main = use loopy
";

const FALSE_PROOF: &str = "module Main
data Same (x : Type) : Type -> Type where
  MkSame : Same x x
bad : Same Int String
bad = bad
cast : (0 a : Type) -> (0 b : Type) -> (p : Same a b) -> a -> b
cast a _ MkSame x = x
main : IO Unit
main = putLine (cast Int String bad 3)
";

pub const LOOP: &str = "module Main
loop : IO Unit
loop = do putLine \"x\"; loop
main : IO Unit
main = loop
";

pub const ZERO_FIRST: &str = "module Main
partial no : Bool -> Int
no True = 1
main : IO Unit
main = putLine (showInt (addInt (divInt 1 0) (no False)))
";

const CLAUSE_FIRST: &str = "module Main
partial no : Bool -> Int
no True = 1
main : IO Unit
main = putLine (showInt (addInt (no False) (divInt 1 0)))
";

pub const ECHO: &str = "module Main
step : Line -> IO Unit
main : IO Unit
main = do
  l <- getLine
  step l
step Eof = pure MkUnit
step (Got s) = do
  putLine s
  main
";

pub const BOXED: &str = "module Main
data Box : Type where
  MkBox : (0 n : Int) -> (1 s : Int) -> Box
b : Box
b = MkBox (divInt 1 0) 4
use : Box -> IO Unit
use x = putLine \"boxed\"
main : IO Unit
main = use b
";

const DOUBLING: &str = "module Main
data Tree : Type where
  Leaf : Tree
  Node : Tree -> Tree -> Tree
dbl : Tree -> Tree
dbl t = Node t t
four : (Tree -> Tree) -> Tree -> Tree
four f t = f (f (f (f t)))
left : Tree -> Int
left Leaf = 0
left (Node a b) = addInt 1 (left a)
main : IO Unit
main = putLine (showInt (left (four (four (four dbl)) Leaf)))
";

pub const HOLE_BEHIND_HANDLES: &str = "module Main
main : IO Unit
main = do
  h <- open \"a\"
  h2 <- write h \"x\"
  ?rest
";

pub const RUN: &[&str] = &["run", "Main"];

pub const CHECK: &[&str] = &["check", "Main"];

pub const CORE: &[&str] = &["core", "Main"];

/// What is put with status 0.
pub fn done<'a>(text: &'a str, words: &'a [&'a str], out: &'a str) -> Row<'a> {
    Row {
        text,
        words,
        input: b"",
        status: 0,
        out,
        err: "",
    }
}

/// What is told with a status, where nothing is put.
pub fn told<'a>(text: &'a str, words: &'a [&'a str], status: u8, err: &'a str) -> Row<'a> {
    Row {
        text,
        words,
        input: b"",
        status,
        out: "",
        err,
    }
}

pub const BOUND: &str = "step bound reached\n";

#[test]
fn programs_run(rt: HostRuntime) -> Result<(), Fail> {
    let rows = [
        done(HELLO, RUN, "hello\n"),
        done(VECTORS, RUN, "15\n"),
        done(IMPLICIT_VECTORS, RUN, "15\n"),
        done(DOUBLING, RUN, "64\n"),
    ];
    assert!(rt; all_hold(&rt, rt.alloc(), &rows)?);
    Ok(())
}

#[test]
fn programs_end_within_their_steps(rt: HostRuntime) -> Result<(), Fail> {
    let rows = [
        done(HELLO, &["run", "Main", "--steps", "2"], "hello\n"),
        done(IDENTITY, &["run", "Main", "--steps", "5"], "3\n"),
        done(LOOPY, &["run", "Main", "--steps", "5"], "ok\n"),
        done(BOXED, &["run", "Main", "--steps", "5"], "boxed\n"),
    ];
    assert!(rt; all_hold(&rt, rt.alloc(), &rows)?);
    Ok(())
}

#[test]
fn programs_go_on_behind_fewer(rt: HostRuntime) -> Result<(), Fail> {
    let rows = [
        told(HELLO, &["run", "Main", "--steps", "1"], 3, BOUND),
        told(IDENTITY, &["run", "Main", "--steps", "4"], 3, BOUND),
        told(LOOPY, &["run", "Main", "--steps", "4"], 3, BOUND),
        told(FALSE_PROOF, &["run", "Main", "--steps", "50"], 3, BOUND),
    ];
    assert!(rt; all_hold(&rt, rt.alloc(), &rows)?);
    let endless = Row {
        text: LOOP,
        words: &["run", "Main", "--steps", "10"],
        input: b"",
        status: 3,
        out: "x\nx\n",
        err: BOUND,
    };
    assert!(rt; holds(&rt, rt.alloc(), &endless)?);
    Ok(())
}

#[test]
fn programs_trap(rt: HostRuntime) -> Result<(), Fail> {
    let at_once = ["run", "Main", "--steps", "1"];
    let rows = [
        told(ZERO_FIRST, RUN, 2, "trap: division by zero\n"),
        told(ZERO_FIRST, &at_once, 2, "trap: division by zero\n"),
        told(CLAUSE_FIRST, RUN, 2, "trap: missing clause\n"),
    ];
    assert!(rt; all_hold(&rt, rt.alloc(), &rows)?);
    Ok(())
}

/// A run of the echo over this input.
fn echo<'a>(input: &'a [u8], status: u8, out: &'a str, err: &'a str) -> Row<'a> {
    Row {
        text: ECHO,
        words: RUN,
        input,
        status,
        out,
        err,
    }
}

#[test]
fn lines_are_echoed(rt: HostRuntime) -> Result<(), Fail> {
    let rows = [
        echo(b"", 0, "", ""),
        echo(b"a", 0, "a\n", ""),
        echo(b"a\r\n\nb", 0, "a\r\n\nb\n", ""),
        echo(b"\xff\n", 2, "", "trap: bad input line\n"),
    ];
    assert!(rt; all_hold(&rt, rt.alloc(), &rows)?);
    Ok(())
}

const ERASED_PROOF: &str = "module Main
g : (0 x : Int) -> Eq Int x x
g x = Refl
";

#[test]
fn modules_are_checked(rt: HostRuntime) -> Result<(), Fail> {
    let rows = [
        done(VECTORS, CHECK, "checked Main 4\n"),
        done(FALSE_PROOF, CHECK, "checked Main 3\n"),
        done(BOXED, CHECK, "checked Main 3\n"),
        done(ERASED_PROOF, CHECK, "checked Main 1\n"),
    ];
    assert!(rt; all_hold(&rt, rt.alloc(), &rows)?);
    Ok(())
}

const UNUSED: &str = "module Main
bad : (1 x : Int) -> Int
bad x = 3
";

const UNUSED_IN_ONE_CLAUSE: &str = "module Main
pick : Bool -> (1 h : Int) -> Int
pick True h = h
pick False h = 0
";

const ERASED_USE: &str = "module Main
f : (0 x : Int) -> Int
f x = x
";

#[test]
fn uses_are_refused(rt: HostRuntime) -> Result<(), Fail> {
    let unused = "Main:3:5: 18 WrongUsage x declared 1 used 0\n";
    let in_one_clause = "Main:4:12: 18 WrongUsage h declared 1 used 0\n";
    let rows = [
        told(UNUSED, CHECK, 1, unused),
        told(UNUSED_IN_ONE_CLAUSE, CHECK, 1, in_one_clause),
        told(ERASED_USE, CHECK, 1, "Main:3:7: 23 ErasedUse x0\n"),
    ];
    assert!(rt; all_hold(&rt, rt.alloc(), &rows)?);
    Ok(())
}

const ENDLESS_TYPES: &str = "module Main
w : Type
w = w
v : Type
v = v
f : v -> w
f y = y
";

const A_TEXT: &str = "module Main
x : Int
x = \"a\"
";

#[test]
fn types_are_refused(rt: HostRuntime) -> Result<(), Fail> {
    let few = ["check", "Main", "--budget", "10"];
    let spent = "Main:7:7: 24 BudgetSpent 10 compare Main.v Main.w\n";
    let mismatch = "Main:3:5: 16 TypeMismatch expected Int found String\n";
    let rows = [
        told(ENDLESS_TYPES, &few, 1, spent),
        told(A_TEXT, CHECK, 1, mismatch),
        told(
            "module Main\nx : 3\n",
            CHECK,
            1,
            "Main:2:5: 19 NotAType Int\n",
        ),
    ];
    assert!(rt; all_hold(&rt, rt.alloc(), &rows)?);
    Ok(())
}

#[test]
fn other_texts_are_refused(rt: HostRuntime) -> Result<(), Fail> {
    let wrong_name = "Main:1:8: 32 WrongModuleName expected Main found Other\n";
    let no_main = "module Main\nx : Int\nx = 1\n";
    let rows = [
        told("", CHECK, 1, "Main:1:1: 8 Unexpected end\n"),
        told(
            "module Main\nx : Int\n",
            CHECK,
            1,
            "Main:2:1: 29 NoClauses x\n",
        ),
        told(
            "module Main\nx : Int\nx = y\n",
            RUN,
            1,
            "Main:3:5: 10 Unbound y\n",
        ),
        told(no_main, RUN, 1, "Main:1:1: 30 WrongMain\n"),
        told("module Other\n", RUN, 1, wrong_name),
    ];
    assert!(rt; all_hold(&rt, rt.alloc(), &rows)?);
    Ok(())
}

const IDENTITY_CORE: &str = "Main.id : ((1 x0 : Int) -> Int) = (\\(1 x0 : Int) => x0)
Main.main : (IO Unit) = (putLine (showInt (Main.id @1 3)))
";

#[test]
fn cores_are_put(rt: HostRuntime) -> Result<(), Fail> {
    let rows = [
        done(IDENTITY, CORE, IDENTITY_CORE),
        done(HELLO, CORE, "Main.main : (IO Unit) = (putLine \"hello\")\n"),
    ];
    assert!(rt; all_hold(&rt, rt.alloc(), &rows)?);
    Ok(())
}

const HOLE_LINES: &str = "checked Main 1
hole rest Main:6:3 : (IO Unit)
  0 h x0 : Handle
  1 h2 x1 : Handle
";

#[test]
fn holes_are_told_and_not_run(rt: HostRuntime) -> Result<(), Fail> {
    let refused = "Main:6:3: 37 HasHoles rest\n";
    let rows = [
        done(HOLE_BEHIND_HANDLES, CHECK, HOLE_LINES),
        told(HOLE_BEHIND_HANDLES, RUN, 1, refused),
        told(HOLE_BEHIND_HANDLES, &["code", "Main"], 1, refused),
    ];
    assert!(rt; all_hold(&rt, rt.alloc(), &rows)?);
    Ok(())
}

pub const USAGE: &str = "usage: qtt COMMAND MODULE [--steps N] [--budget N] [--jobs N]\n";

#[test]
fn other_words_get_the_usage(rt: HostRuntime) -> Result<(), Fail> {
    let rows = [
        told(HELLO, &["run"], 64, USAGE),
        told(HELLO, &["fly", "Main"], 64, USAGE),
        told(HELLO, &["run", "Type"], 64, USAGE),
        told(HELLO, &["run", "Main", "--jobs", "65"], 64, USAGE),
        told(HELLO, &["gen", "0"], 64, USAGE),
        told(HELLO, &["gen", "201"], 64, USAGE),
    ];
    assert!(rt; all_hold(&rt, rt.alloc(), &rows)?);
    Ok(())
}
