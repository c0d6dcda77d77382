//! Questions that take exactly their budget, or one contraction more.

use crate::calls::all_hold;
use crate::rows::{CHECK, done, told};
use std::test::Fail;

const PLUS: &str = "module Main
data Nat : Type where
  Z : Nat
  S : Nat -> Nat
plus : Nat -> Nat -> Nat
plus Z m = m
plus (S n) m = S (plus n m)
same : (n : Nat) -> (m : Nat) -> Eq Nat (plus (S n) m) (S (plus n m))
same n m = Refl
";

const ELEVEN_NAMES: &str = "module Main
a1 : Type
a1 = Int
a2 : Type
a2 = a1
a3 : Type
a3 = a2
a4 : Type
a4 = a3
a5 : Type
a5 = a4
a6 : Type
a6 = a5
a7 : Type
a7 = a6
a8 : Type
a8 = a7
a9 : Type
a9 = a8
a10 : Type
a10 = a9
a11 : Type
a11 = a10
x : a11
x = 3
";

const ONE_SUM: &str = "module Main
x : Eq Int (addInt 1 2) 3
x = Refl
";

const TWO_SUMS: &str = "module Main
x : Eq Int (addInt (addInt 1 1) 1) 3
x = Refl
";

const NO_QUOTIENT: &str = "module Main
x : Eq Int (divInt 1 0) 0
x = Refl
";

const PLUS_SPENT: &str =
    "Main:9:12: 24 BudgetSpent 3 compare (Eq Main.Nat ((Main.plus (Main.S x0)) x1) ((Main.plus (Main.S x0)) x1)) (Eq Main.Nat ((Main.plus (Main.S x0)) x1) (Main.S ((Main.plus x0) x1)))\n";

const SUMS_SPENT: &str =
    "Main:3:5: 24 BudgetSpent 1 compare (Eq Int (addInt (addInt 1 1) 1) (addInt (addInt 1 1) 1)) (Eq Int (addInt (addInt 1 1) 1) 3)\n";

const NO_QUOTIENT_FOUND: &str =
    "Main:3:5: 16 TypeMismatch expected (Eq Int (divInt 1 0) 0) found (Eq Int (divInt 1 0) (divInt 1 0))\n";

/// `check` with a budget of so many contractions for each question.
const ONE: &[&str] = &["check", "Main", "--budget", "1"];

const TWO: &[&str] = &["check", "Main", "--budget", "2"];

const THREE: &[&str] = &["check", "Main", "--budget", "3"];

const FOUR: &[&str] = &["check", "Main", "--budget", "4"];

const TEN: &[&str] = &["check", "Main", "--budget", "10"];

const ELEVEN: &[&str] = &["check", "Main", "--budget", "11"];

#[test]
fn questions_take_their_budget(rt: HostRuntime) -> Result<(), Fail> {
    let ten_spent = "Main:25:5: 24 BudgetSpent 10 compare Int Main.a11\n";
    let rows = [
        done(PLUS, FOUR, "checked Main 2\n"),
        told(PLUS, THREE, 1, PLUS_SPENT),
        done(ELEVEN_NAMES, ELEVEN, "checked Main 12\n"),
        told(ELEVEN_NAMES, TEN, 1, ten_spent),
        done(ONE_SUM, ONE, "checked Main 1\n"),
        done(TWO_SUMS, TWO, "checked Main 1\n"),
        told(TWO_SUMS, ONE, 1, SUMS_SPENT),
        told(NO_QUOTIENT, ONE, 1, NO_QUOTIENT_FOUND),
        told(NO_QUOTIENT, CHECK, 1, NO_QUOTIENT_FOUND),
    ];
    assert!(rt; all_hold(&rt, rt.alloc(), &rows)?);
    Ok(())
}
