//! Definitions of many clauses, of many patterns, and of deep ones.

use super::outline::count_leaves;
use super::table::Table;
use super::terms::{functions, item, numbers, successor};
use qtt_base::{GlobalId, ModuleId, Name};
use qtt_term::{ConId, Term};
use qtt_usage::mult::Mult;
use std::alloc::Global;
use std::test::Fail;

/// The functions from so many arguments of this family to integers.
fn to_int(alloc: Global, family: GlobalId, count: usize) -> Result<Term, Fail> {
    let mut binders = Vec::with_capacity(alloc, count)?;
    for _ in 0..count {
        binders.push((Mult::Many, Term::Fam(family, Vec::new(alloc))))?;
    }
    functions(alloc, binders, Term::IntTy)
}

const DIGITS: &str = "data Digit : Type where
  D0 : Digit
  D1 : Digit
  D2 : Digit
  D3 : Digit
  D4 : Digit
  D5 : Digit
  D6 : Digit
  D7 : Digit
  D8 : Digit
  D9 : Digit
f : Digit -> Digit -> Digit -> Int
";

/// A thousand clauses, one for each number of three digits, have a leaf each.
#[test]
fn a_thousand_clauses(rt: HostRuntime) -> Result<(), Fail> {
    let alloc = rt.alloc();
    let table = Table::new(alloc)?;
    let mut text = String::new(alloc);
    text.push_str(DIGITS)?;
    for number in 0..1_000_u32 {
        let hundreds = number / 100;
        let tens = number / 10 % 10;
        let ones = number % 10;
        let clause = format!(in alloc; "f D{hundreds} D{tens} D{ones} = {number}\n")?;
        text.push_str(clause.as_str())?;
    }
    let Ok(planned) = table.planned(text.as_str(), &to_int(alloc, item(9), 3)?)? else {
        return Err(Fail::from("refused"));
    };
    assert_eq!(rt; count_leaves(&planned.tree)?, 1_000);
    Ok(())
}

/// A clause of a hundred patterns, one of them a constructor, and one that takes the others.
#[test]
fn a_hundred_patterns(rt: HostRuntime) -> Result<(), Fail> {
    let alloc = rt.alloc();
    let mut table = Table::new(alloc)?;
    let truths = GlobalId {
        module: ModuleId(0),
        item: 4,
    };
    let mut text = String::new(alloc);
    text.push_str("f : Int\nf")?;
    for place in 0..100 {
        text.push_str(if place == 50 { " True" } else { " _" })?;
    }
    text.push_str(" = 1\nf")?;
    for _ in 0..100 {
        text.push_str(" _")?;
    }
    text.push_str(" = 2\n")?;
    let wanted = "split 49 [0 0 leaf 1 | 0 0 leaf 0]";
    table.row(&to_int(alloc, truths, 100)?, text.as_str(), wanted)?;
    let wrong = table.wrong;
    assert!(rt; wrong.is_none(), "{wrong:?}");
    Ok(())
}

/// `Vect Int (S (S Z)) -> Int`
fn of_pairs(alloc: Global) -> Result<Term, Fail> {
    let con = ConId {
        family: item(0),
        place: 0,
    };
    let zero = Term::Con(con, Vec::new(alloc), Vec::new(alloc));
    let two = successor(alloc, successor(alloc, zero)?)?;
    let pair = Term::Fam(item(4), vec![in alloc; Term::IntTy, two]?);
    functions(alloc, vec![in alloc; (Mult::Many, pair)]?, Term::IntTy)
}

/// An index whose constructors stand in one another excludes `Nil`, and is stuck at `Cons`: below
/// the outer constructor its own field stands against `S Z`, which solves nothing. Nested patterns
/// are split from without; a clause that stands at two leaves has its number at both.
#[test]
fn nested_constructors(rt: HostRuntime) -> Result<(), Fail> {
    let alloc = rt.alloc();
    let mut table = Table::new(alloc)?;
    table.row(
        &of_pairs(alloc)?,
        "f : Vect Int (S (S Z)) -> Int
f (Cons k x (Cons j y Nil)) = x
",
        "Refused(PatternStuck { depth: 4, left: Var(2), right: Con(ConId { family: \
         GlobalId { module: ModuleId(1), item: 0 }, place: 1 }, [], [Con(ConId { family: \
         GlobalId { module: ModuleId(1), item: 0 }, place: 0 }, [], [])]) }, \
         Span { line: 14, col: 3, len: 1 }, Clauses, 7)",
    )?;
    let both = vec![in alloc; (Mult::Many, numbers(alloc)), (Mult::Many, numbers(alloc))]?;
    table.row(
        &functions(alloc, both, numbers(alloc))?,
        "f : Nat -> Nat -> Nat
f (S Z) m = m
f n m = n
",
        "split 1 [0 0 leaf 1 | 1 0 split 0 [0 0 leaf 0 | 1 0 leaf 1]]",
    )?;
    let wrong = table.wrong;
    assert!(rt; wrong.is_none(), "{wrong:?}");
    Ok(())
}

/// A match on an argument at 0 tells its written name.
#[test]
fn names_of_binders(rt: HostRuntime) -> Result<(), Fail> {
    let alloc = rt.alloc();
    let mut table = Table::new(alloc)?;
    table.labels.push(Name::new(alloc, "b")?)?;
    let truths = GlobalId {
        module: ModuleId(0),
        item: 4,
    };
    let binders = vec![in alloc; (Mult::Zero, Term::Fam(truths, Vec::new(alloc)))]?;
    table.row(
        &functions(alloc, binders, Term::IntTy)?,
        "f : (0 b : Bool) -> Int
f True = 1
f False = 0
",
        "Refused(ErasedMatch { name: Some(b) }, Span { line: 14, col: 3, len: 4 }, Clauses, 6)",
    )?;
    let wrong = table.wrong;
    assert!(rt; wrong.is_none(), "{wrong:?}");
    Ok(())
}
