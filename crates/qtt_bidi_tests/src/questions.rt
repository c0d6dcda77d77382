//! Questions that are spent, at each of their kinds and at their exact counts.

use crate::texts::{Before, elaborated};
use std::alloc::Global;
use std::test::Fail;

/// Types that are their own values, and a definition of one of them.
const CIRCLES: &str = "w : Type\nw = w\nv : Type\nv = v\nc : w\nc = c\n";

/// Texts behind `CIRCLES`, and the line of the question that is spent at 5 contractions.
static SPENT: [(&str, &str); 15] = [
    (
        "x : w\nx = \\y => y",
        "Main:9:5: 24 BudgetSpent 5 head Main.w by LamCheck 1",
    ),
    (
        "x : Int\nx = c 3",
        "Main:9:5: 24 BudgetSpent 5 head Main.w by App 2",
    ),
    (
        "x : Type\nx = c -> Int",
        "Main:9:5: 24 BudgetSpent 5 head Main.w by Pi 1",
    ),
    (
        "x : Type\nx = Int -> c",
        "Main:9:12: 24 BudgetSpent 5 head Main.w by Pi 2",
    ),
    (
        "x : Int\nx = let f = \\(y : c) => 3 in 3",
        "Main:9:19: 24 BudgetSpent 5 head Main.w by LamSynth 2",
    ),
    (
        "x : Int -> Int\nx = \\(y : c) => 3",
        "Main:9:11: 24 BudgetSpent 5 head Main.w by LamCheck 3",
    ),
    (
        "x : Int\nx = let y : c = 3 in 3",
        "Main:9:13: 24 BudgetSpent 5 head Main.w by Let 1",
    ),
    (
        "x : Int\nx = the c 3",
        "Main:9:9: 24 BudgetSpent 5 head Main.w by The 1",
    ),
    (
        "x : c\nx = c",
        "Main:8:5: 24 BudgetSpent 5 head Main.w by Families 8",
    ),
    (
        "x : w\nx = True",
        "Main:9:5: 24 BudgetSpent 5 head Main.w by ConCheck 1",
    ),
    (
        "x : w\nx = pure 1",
        "Main:9:5: 24 BudgetSpent 5 head Main.w by Pure 2",
    ),
    (
        "x : w\nx = do\n  y <- getLine\n  pure y",
        "Main:9:5: 24 BudgetSpent 5 head Main.w by DoBind 2",
    ),
    (
        "x : IO Int\nx = do\n  y <- c\n  pure y",
        "Main:10:8: 24 BudgetSpent 5 head Main.w by DoBind 4",
    ),
    (
        "x : v -> Int\nx = \\(y : w) => 3",
        "Main:9:5: 24 BudgetSpent 5 compare Main.w Main.v by LamCheck 3",
    ),
    (
        "x : Int\nx = c",
        "Main:9:5: 24 BudgetSpent 5 compare Main.w Int by Switch 2",
    ),
];

#[test]
fn each_kind_of_question_is_spent(rt: HostRuntime) -> Result<(), Fail> {
    let alloc = rt.alloc();
    for &(text, line) in &SPENT {
        let text = format!(in alloc; "{CIRCLES}{text}")?;
        assert_eq!(rt;
            elaborated(alloc, Before::Nothing, 5, text.as_str())?.as_str(),
            line
        );
    }
    Ok(())
}

#[test]
fn two_circles_are_compared(rt: HostRuntime) -> Result<(), Fail> {
    let alloc = rt.alloc();
    let text = "w : Type\nw = w\nv : Type\nv = v\nf : v -> w\nf = \\y => y";
    assert_eq!(rt;
        elaborated(alloc, Before::Nothing, 10, text)?.as_str(),
        "Main:7:11: 24 BudgetSpent 10 compare Main.v Main.w by Switch 2"
    );
    Ok(())
}

/// `a1 : Type`, `a1 = Int`, `a2 : Type`, `a2 = a1`, and so on to `a11`, and a number of that.
fn aliases(alloc: Global) -> Result<String, Fail> {
    let mut text = String::new(alloc);
    text.push_str("a1 : Type\na1 = Int\n")?;
    let mut before = 1_u32;
    for number in 2..12_u32 {
        write!(text, "a{number} : Type\na{number} = a{before}\n")?;
        before = number;
    }
    text.push_str("x : a11\nx = 3")?;
    Ok(text)
}

#[test]
fn eleven_names_take_eleven_contractions(rt: HostRuntime) -> Result<(), Fail> {
    let alloc = rt.alloc();
    let text = aliases(alloc)?;
    assert_eq!(rt;
        elaborated(alloc, Before::Nothing, 11, text.as_str())?.as_str(),
        "Main.x : Main.a11 = 3"
    );
    assert_eq!(rt;
        elaborated(alloc, Before::Nothing, 10, text.as_str())?.as_str(),
        "Main:25:5: 24 BudgetSpent 10 compare Int Main.a11 by Switch 2"
    );
    Ok(())
}

#[test]
fn a_sum_takes_four_contractions(rt: HostRuntime) -> Result<(), Fail> {
    let alloc = rt.alloc();
    let text = "same : (n : Nat) -> (m : Nat) -> Eq Nat (plus (S n) m) (S (plus n m))\n\
        same = \\n m => Refl";
    assert_eq!(rt;
        elaborated(alloc, Before::Naturals, 3, text)?.as_str(),
        "Main:9:16: 24 BudgetSpent 3 compare \
            (Eq Main.Nat ((Main.plus (Main.S x0)) x1) ((Main.plus (Main.S x0)) x1)) \
            (Eq Main.Nat ((Main.plus (Main.S x0)) x1) (Main.S ((Main.plus x0) x1))) by ConCheck 4"
    );
    Ok(())
}
