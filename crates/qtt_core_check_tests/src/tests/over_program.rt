//! Rules over a small program: definitions, and matches with linear fields and over no branch.

use super::table::{Made, Table};
use super::terms::{MANY, ONE, int, lam, matching, pi, trap};
use qtt_programs::naturals::{main_family, program};
use qtt_programs::terms::item;
use qtt_term::{Branch, Sigma, Term};
use qtt_usage::mult::Mult;
use std::alloc::Global;
use std::test::Fail;

/// A definition at 0 is used in the erased part alone.
fn definitions(table: &mut Table<'_>) {
    table.row(Ok(Term::Def(item(11))), "Sort(0)");
    table.row(Ok(Term::Def(item(10))), "Fails(Def, 1)");
    table.row(Ok(Term::Def(item(7))), "Fails(Def, 1)");
    table.sigma = Sigma::Erased;
    table.row(Ok(Term::Def(item(7))), "IntTy");
    table.sigma = Sigma::Run;
}

/// `\(b : Box) => case b of MkBox n => body`, where b is bound at the first multiplicity and
/// matched at the second.
fn unboxed(alloc: Global, bound: Mult, mult: Mult, motive: Made, body: Made) -> Made {
    let branches = vec![in alloc;
        Branch {
            fields: 1,
            body: body?
        },
    ]?;
    let opened = matching(alloc, mult, item(4), motive, branches, Ok(Term::Var(0)));
    lam(alloc, bound, Ok(main_family(alloc, 4)), opened)
}

/// The field is bound at the match's multiplicity times its own, and a dead branch may leave it.
/// In the erased part nothing is asked.
fn fields(table: &mut Table<'_>) {
    let a = table.alloc;
    table.row(
        unboxed(a, ONE, ONE, Ok(Term::IntTy), Ok(Term::Var(0))),
        "Pi(One, Fam(GlobalId { module: ModuleId(1), item: 4 }, []), IntTy)",
    );
    table.row(
        unboxed(a, ONE, ONE, Ok(Term::IntTy), int(3)),
        "Fails(Case, 5)",
    );
    table.row(
        unboxed(a, ONE, ONE, Ok(Term::IntTy), trap(a, Ok(Term::IntTy))),
        "Pi(One, Fam(GlobalId { module: ModuleId(1), item: 4 }, []), IntTy)",
    );
    table.row(
        unboxed(
            a,
            ONE,
            ONE,
            pi(a, ONE, Ok(Term::IntTy), Ok(Term::IntTy)),
            lam(a, ONE, Ok(Term::IntTy), trap(a, Ok(Term::IntTy))),
        ),
        "Pi(One, Fam(GlobalId { module: ModuleId(1), item: 4 }, []), Pi(One, IntTy, IntTy))",
    );
    table.row(
        unboxed(a, MANY, MANY, Ok(Term::IntTy), int(3)),
        "Pi(Many, Fam(GlobalId { module: ModuleId(1), item: 4 }, []), IntTy)",
    );
    table.row(
        unboxed(a, ONE, MANY, Ok(Term::IntTy), Ok(Term::Var(0))),
        "Fails(Lam, 3)",
    );
    table.sigma = Sigma::Erased;
    table.row(
        unboxed(a, ONE, ONE, Ok(Term::IntTy), int(3)),
        "Pi(One, Fam(GlobalId { module: ModuleId(1), item: 4 }, []), IntTy)",
    );
    table.sigma = Sigma::Run;
}

/// `\(b : Void) => case b of`, at this multiplicity.
fn absurd(alloc: Global, mult: Mult) -> Made {
    let none = Vec::new(alloc);
    let ended = matching(
        alloc,
        mult,
        item(6),
        Ok(Term::IntTy),
        none,
        Ok(Term::Var(0)),
    );
    lam(alloc, mult, Ok(main_family(alloc, 6)), ended)
}

fn no_branches(table: &mut Table<'_>) {
    let a = table.alloc;
    table.row(
        absurd(a, ONE),
        "Pi(One, Fam(GlobalId { module: ModuleId(1), item: 6 }, []), IntTy)",
    );
    table.row(absurd(a, Mult::Zero), "Fails(Case, 1)");
}

#[test]
fn rules_over_a_program(rt: HostRuntime) -> Result<(), Fail> {
    let globals = program(rt.alloc())?;
    let mut table = Table::new(rt.alloc(), &globals, 10);
    definitions(&mut table);
    fields(&mut table);
    no_branches(&mut table);
    let wrong = table.wrong;
    assert!(rt; wrong.is_none(), "{wrong:?}");
    Ok(())
}
