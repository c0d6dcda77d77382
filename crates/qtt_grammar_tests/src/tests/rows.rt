// Programs in the printer's layout, which are read and printed as they are.

use super::told;
use std::test::Fail;

// A program with families over indices.
pub static PROGRAM: &str = "module Main
data Nat : Type where
  Z : Nat
  S : Nat -> Nat
plus : Nat -> Nat -> Nat
plus Z m = m
plus (S n) m = S (plus n m)
data Vect (a : Type) : Nat -> Type where
  Nil : Vect a Z
  Cons : (0 k : Nat) -> (1 x : a) -> (1 xs : Vect a k) -> Vect a (S k)
append : (0 a : Type) -> (0 m : Nat) -> (0 n : Nat) -> (1 xs : Vect a m) -> (1 ys : Vect a n) -> Vect a (plus m n)
append a _ n Nil ys = ys
append a _ n (Cons k x xs) ys = Cons (plus k n) x (append a k n xs ys)
total : (0 n : Nat) -> Vect Int n -> Int
total _ Nil = 0
total _ (Cons k x xs) = addInt x (total k xs)
main : IO Unit
main = putLine (showInt (total (plus (S (S Z)) (S Z)) (append Int (S (S Z)) (S Z) (Cons (S Z) 4 (Cons Z 5 Nil)) (Cons Z 6 Nil))))
";

// The same with implicit arguments.
static IMPLICIT: &str = "module Main
data Nat : Type where
  Z : Nat
  S : Nat -> Nat
plus : Nat -> Nat -> Nat
plus Z m = m
plus (S n) m = S (plus n m)
data Vect (a : Type) : Nat -> Type where
  Nil : Vect a Z
  Cons : {0 k : Nat} -> (1 x : a) -> (1 xs : Vect a k) -> Vect a (S k)
append : {0 a : Type} -> {0 m : Nat} -> {0 n : Nat} -> (1 xs : Vect a m) -> (1 ys : Vect a n) -> Vect a (plus m n)
append Nil ys = ys
append (Cons x xs) ys = Cons x (append xs ys)
total : {0 n : Nat} -> Vect Int n -> Int
total Nil = 0
total (Cons x xs) = addInt x (total xs)
main : IO Unit
main = putLine (showInt (total (append (Cons 4 (Cons 5 Nil)) (Cons 6 Nil))))
";

static ROWS: [&str; 11] = [
    "module Main
id : (1 x : Int) -> Int
id x = x
main : IO Unit
main = putLine (showInt (id 3))
",
    "module Main
data Same (x : Type) : Type -> Type where
  MkSame : Same x x
bad : Same Int String
bad = bad
cast : (0 a : Type) -> (0 b : Type) -> (p : Same a b) -> a -> b
cast a _ MkSame x = x
main : IO Unit
main = putLine (cast Int String bad 3)
",
    "module Main
partial no : Bool -> Int
no True = 1
main : IO Unit
main = putLine (showInt (addInt (divInt 1 0) (no False)))
",
    "module Main
main : IO Unit
main = do
  h <- open \"a\"
  let 1 f : Unit -> IO Unit = \\u => close h
  f MkUnit
",
    "module Main
step : Line -> IO Unit
main : IO Unit
main = do
  l <- getLine
  step l
step Eof = pure MkUnit
step (Got s) = do
  putLine s
  main
",
    "module Main
main : IO Unit
main = putLine (showInt (divInt -9223372036854775808 -1))
",
    "module Main
data Box : Type where
  MkBox : (0 n : Int) -> (1 s : Int) -> Box
b : Box
b = MkBox (divInt 1 0) 4
use : Box -> IO Unit
use x = putLine \"boxed\"
main : IO Unit
main = use b
",
    "module Main
data Nat : Type where
  Z : Nat
  S : Nat -> Nat
f : (n : Nat) -> (m : Nat) -> (p : Eq Nat n m) -> Int
f n .(n) Refl = 1
",
    "module Main
data Tree : Type where
  Leaf : Tree
  Node : Tree -> Tree -> Tree
dbl : Tree -> Tree
dbl t = Node t t
four : (Tree -> Tree) -> Tree -> Tree
four f t = f (f (f (f t)))
left : Tree -> Int
left Leaf = 0
left (Node a b) = addInt 1 (left a)
main : IO Unit
main = putLine (showInt (left (four (four (four dbl)) Leaf)))
",
    "module Main
empty : {0 a : Type} -> Int
empty = 0
x : Int
x = empty {Int}
",
    "module Main
main : IO Unit
main = do
  h <- open \"a\"
  h2 <- write h \"x\"
  ?rest
",
];

#[test]
fn programs_are_printed_as_they_are(rt: HostRuntime) -> Result<(), Fail> {
    assert_eq!(rt; told(rt.alloc(), PROGRAM)?.as_str(), PROGRAM);
    assert_eq!(rt; told(rt.alloc(), IMPLICIT)?.as_str(), IMPLICIT);
    for &text in &ROWS {
        assert_eq!(rt; told(rt.alloc(), text)?.as_str(), text);
    }
    Ok(())
}
