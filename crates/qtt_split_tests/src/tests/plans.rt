//! Trees of worked definitions, and refusals.

use super::table::Table;
use super::terms::{functions, item, number_case, numbers, successor, sum, vectors};
use qtt_base::{GlobalId, ModuleId};
use qtt_split::glue;
use qtt_term::{Sigma, Term};
use qtt_usage::mult::Mult;
use std::alloc::Global;
use std::test::Fail;

/// An item of Prim.
fn prim(number: u32) -> GlobalId {
    GlobalId {
        module: ModuleId(0),
        item: number,
    }
}

/// The truth values of Prim.
fn truths(alloc: Global) -> Term {
    Term::Fam(prim(4), Vec::new(alloc))
}

fn equality(alloc: Global, ty: Term, one: Term, other: Term) -> Result<Term, Fail> {
    Ok(Term::Fam(prim(13), vec![in alloc; ty, one, other]?))
}

/// `(0 a : Type) -> (0 m : Nat) -> (0 n : Nat) -> (1 xs : Vect a m) -> (1 ys : Vect a n) ->`
/// `Vect a (plus m n)`
fn append_type(alloc: Global) -> Result<Term, Fail> {
    let binders = vec![in alloc;
        (Mult::Zero, Term::Sort(0)),
        (Mult::Zero, numbers(alloc)),
        (Mult::Zero, numbers(alloc)),
        (Mult::One, vectors(alloc, 2, 1)?),
        (Mult::One, vectors(alloc, 3, 1)?),
    ]?;
    let parts = vec![in alloc; Term::Var(4), sum(alloc, 3, 2)?]?;
    functions(alloc, binders, Term::Fam(item(4), parts))
}

/// `Nat -> Nat -> Nat`
fn binary(alloc: Global) -> Result<Term, Fail> {
    let binders = vec![in alloc; (Mult::Many, numbers(alloc)), (Mult::Many, numbers(alloc))]?;
    functions(alloc, binders, numbers(alloc))
}

#[test]
fn sums_and_vectors(rt: HostRuntime) -> Result<(), Fail> {
    let alloc = rt.alloc();
    let mut table = Table::new(alloc)?;
    table.row(
        &binary(alloc)?,
        "f : Nat -> Nat -> Nat
f Z m = m
f (S n) m = S (plus n m)
",
        "split 1 [0 0 leaf 0 | 1 0 leaf 1]",
    )?;
    table.row(
        &append_type(alloc)?,
        "f : (0 a : Type) -> (0 m : Nat) -> (0 n : Nat) -> (1 xs : Vect a m) -> (1 ys : Vect a n) ->
  Vect a (plus m n)
f a _ n Nil ys = ys
f a _ n (Cons k x xs) ys = Cons (plus k n) x (f a k n xs ys)
",
        "split 1 [0 1 leaf 0 | 3 1 leaf 1]",
    )?;
    let wrong = table.wrong;
    assert!(rt; wrong.is_none(), "{wrong:?}");
    Ok(())
}

/// `(0 a : Type) -> (0 n : Nat) -> Vect a (S n) -> a`
fn head_type(alloc: Global) -> Result<Term, Fail> {
    let parts = vec![in alloc; Term::Var(1), successor(alloc, Term::Var(0))?]?;
    let binders = vec![in alloc;
        (Mult::Zero, Term::Sort(0)),
        (Mult::Zero, numbers(alloc)),
        (Mult::Many, Term::Fam(item(4), parts)),
    ]?;
    functions(alloc, binders, Term::Var(2))
}

/// `(0 a : Type) -> (0 b : Type) -> Same a b -> a -> b`
fn cast_type(alloc: Global) -> Result<Term, Fail> {
    let parts = vec![in alloc; Term::Var(1), Term::Var(0)]?;
    let binders = vec![in alloc;
        (Mult::Zero, Term::Sort(0)),
        (Mult::Zero, Term::Sort(0)),
        (Mult::Many, Term::Fam(item(7), parts)),
        (Mult::Many, Term::Var(2)),
    ]?;
    functions(alloc, binders, Term::Var(2))
}

/// `(0 a : Type) -> (0 x : a) -> Eq a x x -> Int`
fn deletion_type(alloc: Global) -> Result<Term, Fail> {
    let proof = equality(alloc, Term::Var(1), Term::Var(0), Term::Var(0))?;
    let binders = vec![in alloc;
        (Mult::Zero, Term::Sort(0)),
        (Mult::Zero, Term::Var(0)),
        (Mult::Many, proof),
    ]?;
    functions(alloc, binders, Term::IntTy)
}

#[test]
fn solved_and_excluded(rt: HostRuntime) -> Result<(), Fail> {
    let alloc = rt.alloc();
    let mut table = Table::new(alloc)?;
    table.row(
        &head_type(alloc)?,
        "f : (0 a : Type) -> (0 n : Nat) -> Vect a (S n) -> a
f a n (Cons k x xs) = x
",
        "split 0 [0 0 absurd | 3 0 leaf 0]",
    )?;
    table.row(
        &cast_type(alloc)?,
        "f : (0 a : Type) -> (0 b : Type) -> Same a b -> a -> b
f a _ MkSame x = x
",
        "split 1 [0 0 leaf 0]",
    )?;
    table.row(
        &deletion_type(alloc)?,
        "f : (0 a : Type) -> (0 x : a) -> Eq a x x -> Int
f a x Refl = 1
",
        "delete 0 [0 leaf 0]",
    )?;
    let wrong = table.wrong;
    assert!(rt; wrong.is_none(), "{wrong:?}");
    Ok(())
}

/// Two truth values at this multiplicity, to a number or a truth value.
fn of_truths(alloc: Global, mult: Mult, goal: Term) -> Result<Term, Fail> {
    let binders = vec![in alloc; (mult, truths(alloc)), (mult, truths(alloc))]?;
    functions(alloc, binders, goal)
}

/// The first clause that fits decides, and a linear variable is bound again in each branch.
#[test]
fn overlapping_clauses(rt: HostRuntime) -> Result<(), Fail> {
    let alloc = rt.alloc();
    let mut table = Table::new(alloc)?;
    let ty = of_truths(alloc, Mult::Many, Term::IntTy)?;
    table.row(
        &ty,
        "f : Bool -> Bool -> Int
f True b = 1
f a True = 2
f a b = 3
",
        "split 1 [0 0 split 0 [0 0 leaf 2 | 0 0 leaf 1] | 0 0 leaf 0]",
    )?;
    table.row(
        &ty,
        "f : Bool -> Bool -> Int
f a True = 2
f True b = 1
f a b = 3
",
        "split 0 [0 0 split 1 [0 0 leaf 2 | 0 0 leaf 1] | 0 0 leaf 0]",
    )?;
    table.row(
        &of_truths(alloc, Mult::One, truths(alloc))?,
        "f : (1 a : Bool) -> (1 b : Bool) -> Bool
f True b = b
f False True = False
f False False = False
",
        "split 1 [0 1 split 0 [0 0 leaf 2 | 0 0 leaf 1] | 0 1 leaf 0]",
    )?;
    let wrong = table.wrong;
    assert!(rt; wrong.is_none(), "{wrong:?}");
    Ok(())
}

/// Where no clause is left, the tree keeps the patterns that lead there.
#[test]
fn missing_clauses(rt: HostRuntime) -> Result<(), Fail> {
    let alloc = rt.alloc();
    let mut table = Table::new(alloc)?;
    let one = vec![in alloc; (Mult::Many, numbers(alloc))]?;
    table.row(
        &functions(alloc, one, numbers(alloc))?,
        "f : Nat -> Nat
f (S n) = n
",
        "split 0 [0 0 missing (Z) | 1 0 leaf 0]",
    )?;
    table.row(
        &binary(alloc)?,
        "f : Nat -> Nat -> Nat
f Z (S (S n)) = n
",
        "split 1 [0 0 split 0 [0 0 missing (Z) (Z) | \
         1 0 split 0 [0 0 missing (Z) (S (Z)) | 1 0 leaf 0]] | 1 0 missing (S _) _]",
    )?;
    let wrong = table.wrong;
    assert!(rt; wrong.is_none(), "{wrong:?}");
    Ok(())
}

/// The tree of `plus` and its right sides make one Case.
#[test]
fn a_plan_is_assembled(rt: HostRuntime) -> Result<(), Fail> {
    let alloc = rt.alloc();
    let table = Table::new(alloc)?;
    let text = "f : Nat -> Nat -> Nat
f Z m = m
f (S n) m = S (plus n m)
";
    let Ok(planned) = table.planned(text, &binary(alloc)?)? else {
        return Err(Fail::from("refused"));
    };
    let recursive = successor(alloc, sum(alloc, 0, 1)?)?;
    let sides = [Term::Var(0), recursive.copy(alloc)?];
    let term = glue(alloc, &planned.tree, &sides)?;
    let wanted = number_case(alloc, 1, Term::Var(0), recursive)?;
    assert!(rt; term.same(&wanted));
    assert_eq!(rt; planned.opened.len(), 2);
    Ok(())
}

/// In the erased part each match is at 0.
#[test]
fn erased_part(rt: HostRuntime) -> Result<(), Fail> {
    let alloc = rt.alloc();
    let mut table = Table::new(alloc)?;
    let one = vec![in alloc; (Mult::Zero, truths(alloc))]?;
    let ty = functions(alloc, one, Term::IntTy)?;
    let text = "f : (0 b : Bool) -> Int
f True = 1
f False = 0
";
    table.row(
        &ty,
        text,
        "Refused(ErasedMatch { name: None }, Span { line: 14, col: 3, len: 4 }, Clauses, 6)",
    )?;
    table.sigma = Sigma::Erased;
    table.row(&ty, text, "split 0 [0 0 leaf 1 | 0 0 leaf 0]")?;
    let wrong = table.wrong;
    assert!(rt; wrong.is_none(), "{wrong:?}");
    Ok(())
}

/// `(n : Nat) -> Eq Nat n (S n) -> Int`
fn circle_type(alloc: Global) -> Result<Term, Fail> {
    let more = successor(alloc, Term::Var(0))?;
    let proof = equality(alloc, numbers(alloc), Term::Var(0), more)?;
    let binders = vec![in alloc; (Mult::Many, numbers(alloc)), (Mult::Many, proof)]?;
    functions(alloc, binders, Term::IntTy)
}

/// `Nat -> Int`
fn to_int(alloc: Global) -> Result<Term, Fail> {
    let binders = vec![in alloc; (Mult::Many, numbers(alloc))]?;
    functions(alloc, binders, Term::IntTy)
}

#[test]
fn numbers_of_patterns(rt: HostRuntime) -> Result<(), Fail> {
    let alloc = rt.alloc();
    let mut table = Table::new(alloc)?;
    table.row(
        &to_int(alloc)?,
        "f : Nat -> Int
f Z = 1
f a b = 2
",
        "Refused(WrongArity { expected: 1, found: 2 }, Span { line: 15, col: 1, len: 1 }, \
         Clauses, 1)",
    )?;
    table.row(
        &to_int(alloc)?,
        "f : Nat -> Int
f (S (S a b)) = 1
",
        "Refused(WrongArity { expected: 1, found: 2 }, Span { line: 14, col: 6, len: 1 }, \
         Clauses, 2)",
    )?;
    table.row(
        &to_int(alloc)?,
        "f : Nat -> Int
f a b = 1
",
        "Refused(NotAFunction { depth: 1, ty: IntTy }, Span { line: 14, col: 1, len: 1 }, \
         Clauses, 3)",
    )?;
    let wrong = table.wrong;
    assert!(rt; wrong.is_none(), "{wrong:?}");
    Ok(())
}

#[test]
fn another_family_and_a_circle(rt: HostRuntime) -> Result<(), Fail> {
    let alloc = rt.alloc();
    let mut table = Table::new(alloc)?;
    table.row(
        &to_int(alloc)?,
        "f : Nat -> Int
f True = 1
",
        "Refused(NotAFamily { depth: 1, ty: Fam(GlobalId { module: ModuleId(1), item: 0 }, []) }, \
         Span { line: 14, col: 3, len: 4 }, Clauses, 5)",
    )?;
    table.row(
        &circle_type(alloc)?,
        "f : (n : Nat) -> Eq Nat n (S n) -> Int
f n Refl = 1
",
        "Refused(PatternStuck { depth: 2, left: Var(1), right: Con(ConId { family: \
         GlobalId { module: ModuleId(1), item: 0 }, place: 1 }, [], [Var(1)]) }, \
         Span { line: 14, col: 5, len: 4 }, Clauses, 7)",
    )?;
    let wrong = table.wrong;
    assert!(rt; wrong.is_none(), "{wrong:?}");
    Ok(())
}

/// `(1 n : Nat) -> Eq Nat n n -> Nat`: the point is a variable that a deletion binds again.
fn linear_point(alloc: Global) -> Result<Term, Fail> {
    let proof = equality(alloc, numbers(alloc), Term::Var(0), Term::Var(0))?;
    let binders = vec![in alloc; (Mult::One, numbers(alloc)), (Mult::Many, proof)]?;
    functions(alloc, binders, numbers(alloc))
}

/// `(n : Nat) -> (m : Nat) -> Vect Int (plus n m) -> Int`
fn of_sum(alloc: Global) -> Result<Term, Fail> {
    let parts = vec![in alloc; Term::IntTy, sum(alloc, 1, 0)?]?;
    let binders = vec![in alloc;
        (Mult::Many, numbers(alloc)),
        (Mult::Many, numbers(alloc)),
        (Mult::Many, Term::Fam(item(4), parts)),
    ]?;
    functions(alloc, binders, Term::IntTy)
}

#[test]
fn stuck_equations(rt: HostRuntime) -> Result<(), Fail> {
    let alloc = rt.alloc();
    let mut table = Table::new(alloc)?;
    table.row(
        &linear_point(alloc)?,
        "f : (1 n : Nat) -> Eq Nat n n -> Nat
f n Refl = n
",
        "Refused(PatternStuck { depth: 2, left: Var(1), right: Var(1) }, \
         Span { line: 14, col: 5, len: 4 }, Clauses, 9)",
    )?;
    table.row(
        &of_sum(alloc)?,
        "f : (n : Nat) -> (m : Nat) -> Vect Int (plus n m) -> Int
f n m Nil = 1
",
        "Refused(PatternStuck { depth: 3, left: Con(ConId { family: \
         GlobalId { module: ModuleId(1), item: 0 }, place: 0 }, [], []), \
         right: App(Many, App(Many, Def(GlobalId { module: ModuleId(1), item: 3 }), Var(2)), \
         Var(1)) }, Span { line: 14, col: 7, len: 3 }, Clauses, 7)",
    )?;
    let wrong = table.wrong;
    assert!(rt; wrong.is_none(), "{wrong:?}");
    Ok(())
}

/// A tree of more than 10,000 leaves is refused: each of the five splits has nine branches that go
/// on.
#[test]
fn too_many_leaves(rt: HostRuntime) -> Result<(), Fail> {
    let alloc = rt.alloc();
    let mut table = Table::new(alloc)?;
    let mut binders = Vec::new(alloc);
    for _ in 0..5 {
        binders.push((Mult::Many, Term::Fam(item(9), Vec::new(alloc))))?;
    }
    table.row(
        &functions(alloc, binders, Term::IntTy)?,
        "data Digit : Type where
  D0 : Digit
  D1 : Digit
  D2 : Digit
  D3 : Digit
  D4 : Digit
  D5 : Digit
  D6 : Digit
  D7 : Digit
  D8 : Digit
  D9 : Digit
f : Digit -> Digit -> Digit -> Digit -> Digit -> Int
f D0 _ _ _ _ = 1
f _ D0 _ _ _ = 2
f _ _ D0 _ _ = 3
f _ _ _ D0 _ = 4
f _ _ _ _ D0 = 5
",
        "Refused(Limit { quantity: Leaves, count: 10001 }, \
         Span { line: 25, col: 1, len: 1 }, Clauses, 12)",
    )?;
    let wrong = table.wrong;
    assert!(rt; wrong.is_none(), "{wrong:?}");
    Ok(())
}
