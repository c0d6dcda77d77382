//! Each rule over the module Prim, accepted and failing at its premises.

use super::table::Table;
use super::terms::{
    MANY, ONE, ZERO, action, app, choice, constructor, counted, deletion, equality, family, got,
    int, io, lam, pi, prim, prim_item, pure, reflexivity, text, transport, trap, truth,
};
use qtt_conv::BySubst;
use qtt_core_check::infer;
use qtt_prims::{ActKind, Primitive};
use qtt_term::{Ctx, Globals, IoKind, Sigma, Term};
use qtt_usage::mult::Mult;
use std::test::Fail;

/// Variables, Sorts, functions and applications.
fn functions(table: &mut Table<'_>) {
    let a = table.alloc;
    table.row(Ok(Term::Var(0)), "Fails(Var, 1)");
    table.row(
        lam(a, ZERO, Ok(Term::IntTy), Ok(Term::Var(0))),
        "Fails(Var, 1)",
    );
    table.row(Ok(Term::Sort(0)), "Sort(1)");
    table.row(Ok(Term::Sort(u32::MAX)), "Fails(Sort, 1)");
    table.row(pi(a, MANY, Ok(Term::IntTy), Ok(Term::Sort(3))), "Sort(4)");
    table.row(pi(a, MANY, int(3), Ok(Term::IntTy)), "Fails(Pi, 1)");
    table.row(
        pi(a, MANY, Ok(Term::IntTy), Ok(Term::Var(0))),
        "Fails(Pi, 2)",
    );
    table.row(
        lam(a, ONE, Ok(Term::IntTy), Ok(Term::Var(0))),
        "Pi(One, IntTy, IntTy)",
    );
    table.row(lam(a, ONE, int(3), Ok(Term::Var(0))), "Fails(Lam, 1)");
    table.row(lam(a, ONE, Ok(Term::IntTy), int(3)), "Fails(Lam, 3)");
    table.row(
        lam(a, ONE, Ok(Term::IntTy), trap(a, Ok(Term::IntTy))),
        "Pi(One, IntTy, IntTy)",
    );
    table.row(
        app(
            a,
            ONE,
            lam(a, ONE, Ok(Term::IntTy), Ok(Term::Var(0))),
            int(3),
        ),
        "IntTy",
    );
    table.row(app(a, MANY, int(3), int(4)), "Fails(App, 1)");
    table.row(
        app(
            a,
            MANY,
            lam(a, ONE, Ok(Term::IntTy), Ok(Term::Var(0))),
            int(4),
        ),
        "Fails(App, 1)",
    );
    table.row(
        app(
            a,
            ONE,
            lam(a, ONE, Ok(Term::StringTy), Ok(Term::Var(0))),
            int(4),
        ),
        "Fails(App, 2)",
    );
}

/// Families and constructors, definitions that are not there.
fn data(table: &mut Table<'_>) {
    let a = table.alloc;
    table.row(family(a, 4), "Sort(0)");
    table.row(family(a, 99), "Fails(Fam, 1)");
    table.row(family(a, 13), "Fails(Fam, 1)");
    table.row(equality(a, Ok(Term::IntTy), int(3), int(4)), "Sort(0)");
    table.row(
        equality(a, Ok(Term::IntTy), int(3), Ok(Term::IntTy)),
        "Fails(Fam, 1)",
    );
    table.row(
        truth(a, 1),
        "Fam(GlobalId { module: ModuleId(0), item: 4 }, [])",
    );
    table.row(truth(a, 2), "Fails(Con, 1)");
    table.row(
        reflexivity(a, Ok(Term::IntTy), Ok(Term::IntTy)),
        "Fails(Con, 1)",
    );
    table.row(
        got(a, text(a)),
        "Fam(GlobalId { module: ModuleId(0), item: 5 }, [])",
    );
    table.row(got(a, int(3)), "Fails(Con, 2)");
    table.row(Ok(Term::Def(prim_item(99))), "Fails(Def, 1)");
}

/// Matches on a Bool; the uses of branches are joined.
fn choices(table: &mut Table<'_>) {
    let a = table.alloc;
    table.row(
        choice(a, MANY, Ok(Term::IntTy), int(3), int(4), truth(a, 1)),
        "IntTy",
    );
    table.row(
        choice(a, ZERO, Ok(Term::IntTy), int(3), int(4), truth(a, 1)),
        "Fails(Case, 1)",
    );
    table.row(
        choice(a, MANY, int(3), int(3), int(4), truth(a, 1)),
        "Fails(Case, 3)",
    );
    table.row(
        choice(a, MANY, Ok(Term::IntTy), int(3), text(a), truth(a, 1)),
        "Fails(Case, 4)",
    );
    table.row(
        choice(a, MANY, Ok(Term::IntTy), int(3), int(4), int(5)),
        "Fails(Case, 6)",
    );
    let both = choice(
        a,
        MANY,
        Ok(Term::IntTy),
        Ok(Term::Var(0)),
        Ok(Term::Var(0)),
        truth(a, 1),
    );
    table.row(lam(a, ONE, Ok(Term::IntTy), both), "Pi(One, IntTy, IntTy)");
    let one = choice(
        a,
        MANY,
        Ok(Term::IntTy),
        Ok(Term::Var(0)),
        int(4),
        truth(a, 1),
    );
    table.row(lam(a, ONE, Ok(Term::IntTy), one), "Fails(Lam, 3)");
    let missing = choice(
        a,
        MANY,
        Ok(Term::IntTy),
        Ok(Term::Var(0)),
        trap(a, Ok(Term::IntTy)),
        truth(a, 1),
    );
    table.row(
        lam(a, ONE, Ok(Term::IntTy), missing),
        "Pi(One, IntTy, IntTy)",
    );
}

/// Matches on proofs of equality.
fn deletions(table: &mut Table<'_>) {
    let a = table.alloc;
    table.row(
        deletion(
            a,
            MANY,
            (Ok(Term::IntTy), int(3)),
            Ok(Term::IntTy),
            int(1),
            reflexivity(a, Ok(Term::IntTy), int(3)),
        ),
        "IntTy",
    );
    table.row(
        deletion(
            a,
            ZERO,
            (Ok(Term::IntTy), int(3)),
            Ok(Term::IntTy),
            int(1),
            reflexivity(a, Ok(Term::IntTy), int(3)),
        ),
        "Fails(Delete, 1)",
    );
    table.row(
        deletion(
            a,
            MANY,
            (Ok(Term::Sort(0)), Ok(Term::IntTy)),
            Ok(Term::IntTy),
            int(1),
            int(2),
        ),
        "Fails(Delete, 2)",
    );
    table.row(
        deletion(
            a,
            MANY,
            (Ok(Term::IntTy), text(a)),
            Ok(Term::IntTy),
            int(1),
            int(2),
        ),
        "Fails(Delete, 3)",
    );
    table.row(
        deletion(a, MANY, (Ok(Term::IntTy), int(3)), int(3), int(1), int(2)),
        "Fails(Delete, 4)",
    );
    table.row(
        deletion(
            a,
            MANY,
            (Ok(Term::IntTy), int(3)),
            Ok(Term::IntTy),
            text(a),
            int(2),
        ),
        "Fails(Delete, 5)",
    );
    table.row(
        deletion(
            a,
            MANY,
            (Ok(Term::IntTy), int(3)),
            Ok(Term::IntTy),
            int(1),
            reflexivity(a, Ok(Term::IntTy), int(4)),
        ),
        "Fails(Delete, 6)",
    );
}

/// Literals, primitive types, primitives, actions, missing clauses and tapes.
fn named(table: &mut Table<'_>) {
    let a = table.alloc;
    table.row(int(3), "IntTy");
    table.row(text(a), "StringTy");
    table.row(Ok(Term::IntTy), "Sort(0)");
    table.row(Ok(Term::StringTy), "Sort(0)");
    table.row(Ok(Term::HandleTy), "Sort(0)");
    table.row(io(a, IoKind::Io1, Ok(Term::HandleTy)), "Sort(0)");
    table.row(io(a, IoKind::Io, Ok(Term::Sort(0))), "Fails(PrimTy, 1)");
    table.row(prim(a, Primitive::ShowInt, int(3)), "StringTy");
    table.row(prim(a, Primitive::ShowInt, text(a)), "Fails(Prim, 1)");
    table.row(prim(a, Primitive::AddInt, int(3)), "Fails(Prim, 1)");
    table.row(pure(a, Ok(Term::IntTy), int(3)), "IoTy(Io, IntTy)");
    table.row(action(a, ActKind::PutLine, int(3)), "Fails(Act, 1)");
    table.row(action(a, ActKind::GetLine, int(3)), "Fails(Act, 1)");
    table.row(trap(a, Ok(Term::IntTy)), "IntTy");
    table.row(trap(a, int(3)), "Fails(Trap, 1)");
    table.row(Ok(Term::Tape(0)), "HandleTy");
}

/// Arguments at 0 are judged in the erased part, and their uses are not counted.
fn erased(table: &mut Table<'_>) {
    let a = table.alloc;
    let of_zero = app(
        a,
        ZERO,
        lam(a, ZERO, Ok(Term::IntTy), int(3)),
        Ok(Term::Var(0)),
    );
    table.row(
        lam(a, ZERO, Ok(Term::IntTy), of_zero),
        "Pi(Zero, IntTy, IntTy)",
    );
    let of_one = app(
        a,
        ZERO,
        lam(a, ZERO, Ok(Term::IntTy), int(3)),
        Ok(Term::Var(0)),
    );
    table.row(lam(a, ONE, Ok(Term::IntTy), of_one), "Fails(Lam, 3)");
    table.sigma = Sigma::Erased;
    table.row(
        lam(a, ZERO, Ok(Term::IntTy), Ok(Term::Var(0))),
        "Pi(Zero, IntTy, IntTy)",
    );
    table.row(
        lam(a, ONE, Ok(Term::IntTy), int(3)),
        "Pi(One, IntTy, IntTy)",
    );
    table.row(
        choice(a, ZERO, Ok(Term::IntTy), int(3), int(4), truth(a, 1)),
        "IntTy",
    );
}

/// Matches whose numbers of components are others than their family's, and matches with
/// parameters and an index.
fn matches(table: &mut Table<'_>) {
    let a = table.alloc;
    table.row(counted(a, 4, 0, 0, &[0, 0]), "Sort(0)");
    table.row(counted(a, 99, 0, 0, &[0, 0]), "Fails(Case, 1)");
    table.row(counted(a, 4, 1, 0, &[0, 0]), "Fails(Case, 1)");
    table.row(counted(a, 4, 0, 1, &[0, 0]), "Fails(Case, 1)");
    table.row(counted(a, 4, 0, 0, &[0]), "Fails(Case, 1)");
    table.row(counted(a, 4, 0, 0, &[0, 1]), "Fails(Case, 1)");
    table.row(
        transport(
            a,
            Ok(Term::IntTy),
            int(3),
            reflexivity(a, Ok(Term::IntTy), int(3)),
        ),
        "IntTy",
    );
    table.row(
        transport(
            a,
            Ok(Term::IntTy),
            text(a),
            reflexivity(a, Ok(Term::IntTy), int(3)),
        ),
        "Fails(Case, 2)",
    );
    table.row(
        transport(
            a,
            Ok(Term::IntTy),
            int(3),
            reflexivity(a, Ok(Term::IntTy), int(4)),
        ),
        "Fails(Case, 6)",
    );
}

/// Constructors and actions with other numbers of components than their signature's.
fn counts(table: &mut Table<'_>) {
    let a = table.alloc;
    table.row(constructor(a, 4, 1, 0), "Fails(Con, 1)");
    table.row(constructor(a, 4, 0, 1), "Fails(Con, 1)");
    table.row(constructor(a, 5, 0, 0), "Fails(Con, 1)");
    table.row(constructor(a, 99, 0, 0), "Fails(Con, 1)");
    table.row(action(a, ActKind::Pure, int(3)), "Fails(Act, 1)");
    table.row(pure(a, Ok(Term::Sort(0)), Ok(Term::IntTy)), "Fails(Act, 1)");
}

#[test]
fn rules_are_judged(rt: HostRuntime) -> Result<(), Fail> {
    let globals = Globals::prim(rt.alloc())?;
    let mut table = Table::new(rt.alloc(), &globals, 10);
    functions(&mut table);
    data(&mut table);
    counts(&mut table);
    named(&mut table);
    choices(&mut table);
    matches(&mut table);
    deletions(&mut table);
    erased(&mut table);
    let wrong = table.wrong;
    assert!(rt; wrong.is_none(), "{wrong:?}");
    Ok(())
}

/// In the context of a linear Int and then a String the Int is variable 1, and it is used once.
#[test]
fn uses_are_of_the_newest_variable_first(rt: HostRuntime) -> Result<(), Fail> {
    let alloc = rt.alloc();
    let globals = Globals::prim(alloc)?;
    let context = Ctx {
        vars: vec![in alloc; (ONE, Term::IntTy), (MANY, Term::StringTy)]?,
        names: Vec::new(alloc),
    };
    let older = Term::Var(1);
    let answer = infer(alloc, &BySubst, 0, &globals, &context, Sigma::Run, &older);
    let Ok((ty, uses)) = answer else {
        return Err(Fail::from("refused"));
    };
    assert!(rt; ty.same(&Term::IntTy));
    assert_eq!(rt; uses.len(), 2);
    assert!(rt; matches!(uses.get(0), Mult::Zero));
    assert!(rt; matches!(uses.get(1), Mult::One));
    Ok(())
}
