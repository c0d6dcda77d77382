//! Questions that the rules ask, each answered within its count of contractions and spent with
//! one fewer.

use super::table::{Made, Table};
use super::terms::{MANY, app, equality, int, lam, reflexivity};
use qtt_prims::Primitive;
use qtt_programs::naturals::{main_family, program, successor, sum};
use qtt_programs::terms::item;
use qtt_term::{ConId, Globals, Term};
use std::alloc::Global;
use std::test::Fail;

/// A function whose argument has this type, at this argument.
fn given(alloc: Global, ty: Made, argument: Made) -> Made {
    app(alloc, MANY, lam(alloc, MANY, ty, int(3)), argument)
}

/// A proof that 1 + 2 is 3 by reflexivity, which takes one contraction.
fn sum_is_three(a: Global) -> Made {
    let sum = Term::Prim(Primitive::AddInt, vec![in a; int(1)?, int(2)?]?);
    let law = equality(a, Ok(Term::IntTy), Ok(sum), int(3));
    given(a, law, reflexivity(a, Ok(Term::IntTy), int(3)))
}

#[test]
fn questions_are_spent(rt: HostRuntime) -> Result<(), Fail> {
    let globals = Globals::prim(rt.alloc())?;
    let mut table = Table::new(rt.alloc(), &globals, 1);
    table.row(sum_is_three(rt.alloc()), "IntTy");
    table.budget = 0;
    table.row(
        sum_is_three(rt.alloc()),
        "Spent(Compare(0, \
         Fam(GlobalId { module: ModuleId(0), item: 13 }, [IntTy, Lit(Int(3)), Lit(Int(3))]), \
         Fam(GlobalId { module: ModuleId(0), item: 13 }, \
         [IntTy, Prim(AddInt, [Lit(Int(1)), Lit(Int(2))]), Lit(Int(3))])))",
    );
    let wrong = table.wrong;
    assert!(rt; wrong.is_none(), "{wrong:?}");
    Ok(())
}

/// A number as an element of a11, which takes eleven contractions.
fn aliases(table: &mut Table<'_>) {
    let a = table.alloc;
    table.budget = 11;
    table.row(given(a, Ok(Term::Def(item(21))), int(3)), "IntTy");
    table.budget = 10;
    table.row(
        given(a, Ok(Term::Def(item(21))), int(3)),
        "Spent(Compare(0, IntTy, Def(GlobalId { module: ModuleId(1), item: 21 })))",
    );
}

/// A variable of type v as an element of w, and as a function: each is itself for ever.
fn circles(table: &mut Table<'_>) {
    let a = table.alloc;
    table.budget = 10;
    let other = given(a, Ok(Term::Def(item(9))), Ok(Term::Var(0)));
    table.row(
        lam(a, MANY, Ok(Term::Def(item(8))), other),
        "Spent(Compare(1, Def(GlobalId { module: ModuleId(1), item: 8 }), \
         Def(GlobalId { module: ModuleId(1), item: 9 })))",
    );
    let called = app(a, MANY, Ok(Term::Var(0)), int(3));
    table.row(
        lam(a, MANY, Ok(Term::Def(item(8))), called),
        "Spent(Head(1, Def(GlobalId { module: ModuleId(1), item: 8 })))",
    );
}

/// For all numbers n and m that `plus (S n) m` equals `S (plus n m)`, by reflexivity: a
/// definition, two functions and a match.
fn sum_of_successor(alloc: Global) -> Made {
    let left = sum(alloc, successor(alloc, Term::Var(1))?, Term::Var(0))?;
    let point = left.copy(alloc)?;
    let right = successor(alloc, sum(alloc, Term::Var(1), Term::Var(0))?);
    let law = equality(alloc, Ok(main_family(alloc, 0)), Ok(left), right);
    let proof = reflexivity(alloc, Ok(main_family(alloc, 0)), Ok(point));
    let inner = lam(
        alloc,
        MANY,
        Ok(main_family(alloc, 0)),
        given(alloc, law, proof),
    );
    lam(alloc, MANY, Ok(main_family(alloc, 0)), inner)
}

/// For each number n that `plus n Z` equals n, by reflexivity.
fn sum_with_zero(alloc: Global) -> Made {
    let con = ConId {
        family: item(0),
        place: 0,
    };
    let zero = Term::Con(con, Vec::new(alloc), Vec::new(alloc));
    let left = sum(alloc, Term::Var(0), zero)?;
    let point = left.copy(alloc)?;
    let law = equality(alloc, Ok(main_family(alloc, 0)), Ok(left), Ok(Term::Var(0)));
    let proof = reflexivity(alloc, Ok(main_family(alloc, 0)), Ok(point));
    lam(
        alloc,
        MANY,
        Ok(main_family(alloc, 0)),
        given(alloc, law, proof),
    )
}

fn sums(table: &mut Table<'_>) {
    let a = table.alloc;
    table.budget = 4;
    table.row(
        sum_of_successor(a),
        "Pi(Many, Fam(GlobalId { module: ModuleId(1), item: 0 }, []), \
         Pi(Many, Fam(GlobalId { module: ModuleId(1), item: 0 }, []), IntTy))",
    );
    table.budget = 3;
    table.front(sum_of_successor(a), "Spent(Compare(2, Fam(");
    table.budget = 10;
    table.row(sum_with_zero(a), "Fails(App, 2)");
}

#[test]
fn questions_over_a_program(rt: HostRuntime) -> Result<(), Fail> {
    let globals = program(rt.alloc())?;
    let mut table = Table::new(rt.alloc(), &globals, 10);
    aliases(&mut table);
    circles(&mut table);
    sums(&mut table);
    let wrong = table.wrong;
    assert!(rt; wrong.is_none(), "{wrong:?}");
    Ok(())
}
