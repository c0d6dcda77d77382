//! Worked problems, one of each outcome.

use qtt_base::{GlobalId, ModuleId, Name};
use qtt_conv::BySubst;
use qtt_term::{ConId, Constructor, Ctx, Family, Globals, Term};
use qtt_unify::{Problem, Solved, UnifyError, solve};
use qtt_usage::mult::Mult;
use std::alloc::Global;
use std::test::Fail;

/// The family of equality, of the module Prim.
const EQ: GlobalId = GlobalId {
    module: ModuleId(0),
    item: 13,
};

/// An item of Main.
fn item(number: u32) -> GlobalId {
    GlobalId {
        module: ModuleId(1),
        item: number,
    }
}

fn numbers(alloc: Global) -> Term {
    Term::Fam(item(0), Vec::new(alloc))
}

fn zero(alloc: Global) -> Term {
    let con = ConId {
        family: item(0),
        place: 0,
    };
    Term::Con(con, Vec::new(alloc), Vec::new(alloc))
}

fn successor(alloc: Global, n: Term) -> Result<Term, Fail> {
    let con = ConId {
        family: item(0),
        place: 1,
    };
    Ok(Term::Con(con, Vec::new(alloc), vec![in alloc; n]?))
}

fn constructor(
    alloc: Global,
    number: u32,
    name: &str,
    fields: Vec<(Mult, Term)>,
) -> Result<Constructor, Fail> {
    Ok(Constructor {
        id: item(number),
        name: Name::new(alloc, name)?,
        fields,
        labels: Vec::new(alloc),
        result: Vec::new(alloc),
    })
}

/// The module Prim, and `data Nat : Type where Z : Nat; S : Nat -> Nat`.
fn known(alloc: Global) -> Result<Globals, Fail> {
    let mut globals = Globals::prim(alloc)?;
    let before = vec![in alloc; (Mult::Many, numbers(alloc))]?;
    let zero = constructor(alloc, 1, "Main.Z", Vec::new(alloc))?;
    let successor = constructor(alloc, 2, "Main.S", before)?;
    let family = Family {
        id: item(0),
        name: Name::new(alloc, "Main.Nat")?,
        params: Vec::new(alloc),
        indices: Vec::new(alloc),
        level: 0,
        constructors: vec![in alloc; zero, successor]?,
    };
    if !globals.can_add(&family) {
        return Err(Fail::from("the family may not be added"));
    }
    globals.add_family(alloc, family)?;
    Ok(globals)
}

/// `n : Nat`, `m : Nat` at this multiplicity and `p : Eq Nat n t`, which is split, against `Refl`.
fn eq_against(alloc: Global, mult: Mult, t: &Term) -> Result<Problem, Fail> {
    let equality = vec![in alloc; numbers(alloc), Term::Var(2), t.copy(alloc)?]?;
    let vars = vec![in alloc;
        (Mult::Many, numbers(alloc)),
        (mult, numbers(alloc)),
        (Mult::Many, Term::Fam(EQ, equality)),
    ]?;
    Ok(Problem {
        ctx: Ctx {
            vars,
            names: Vec::new(alloc),
        },
        scrutinee: 0,
        family: EQ,
        params: vec![in alloc; numbers(alloc), Term::Var(2)]?,
        targets: vec![in alloc; t.copy(alloc)?]?,
        found: vec![in alloc; Term::Var(2)]?,
    })
}

/// `0 n : Nat`, `v : Vect Int (S n)`, which is split, and `0 k : Nat`, against a constructor of
/// this result index.
fn vect_against(alloc: Global, found: Term) -> Result<Problem, Fail> {
    let vector = vec![in alloc; Term::IntTy, successor(alloc, Term::Var(0))?]?;
    let vars = vec![in alloc;
        (Mult::Zero, numbers(alloc)),
        (Mult::Many, Term::Fam(item(4), vector)),
        (Mult::Zero, numbers(alloc)),
    ]?;
    Ok(Problem {
        ctx: Ctx {
            vars,
            names: Vec::new(alloc),
        },
        scrutinee: 1,
        family: item(4),
        params: vec![in alloc; Term::IntTy]?,
        targets: vec![in alloc; successor(alloc, Term::Var(2))?]?,
        found: vec![in alloc; found]?,
    })
}

/// What a problem comes to within so many contractions for each question.
fn within(alloc: Global, budget: u64, problem: &Problem) -> Result<Solved, Fail> {
    let env = known(alloc)?;
    match solve(alloc, &BySubst, budget, &env, problem) {
        Ok(solved) => Ok(solved),
        Err(UnifyError::Spent(_)) => Err(Fail::from("a question is spent")),
        Err(UnifyError::Memory) => Err(Fail::from("out of memory")),
    }
}

/// Whether one variable is solved, by this one.
fn is_solved(solved: &Solved, variable: u32, by: u32) -> bool {
    match solved {
        Solved::Solution(all) => {
            all.len() == 1 && all[0].0 == variable && all[0].1.same(&Term::Var(by))
        }
        _ => false,
    }
}

/// Whether a result index is stuck at this target, both variables.
fn is_stuck(solved: &Solved, index: u32, target: u32) -> bool {
    match solved {
        Solved::Stuck(found, stuck) => {
            found.same(&Term::Var(index)) && stuck.same(&Term::Var(target))
        }
        _ => false,
    }
}

#[test]
fn variables_are_solved(rt: HostRuntime) -> Result<(), Fail> {
    let alloc = rt.alloc();
    let by_point = eq_against(alloc, Mult::Many, &Term::Var(1))?;
    assert!(rt; is_solved(&within(alloc, 0, &by_point)?, 1, 2));
    let by_field = vect_against(alloc, successor(alloc, Term::Var(0))?)?;
    assert!(rt; is_solved(&within(alloc, 0, &by_field)?, 2, 0));
    Ok(())
}

#[test]
fn zero_and_successor_clash(rt: HostRuntime) -> Result<(), Fail> {
    let alloc = rt.alloc();
    let problem = vect_against(alloc, zero(alloc))?;
    assert!(rt; matches!(within(alloc, 0, &problem)?, Solved::Clash));
    Ok(())
}

#[test]
fn linear_variables_are_stuck(rt: HostRuntime) -> Result<(), Fail> {
    let alloc = rt.alloc();
    let problem = eq_against(alloc, Mult::One, &Term::Var(1))?;
    assert!(rt; is_stuck(&within(alloc, 3, &problem)?, 2, 1));
    Ok(())
}

#[test]
fn proofs_that_a_point_is_itself_are_deleted(rt: HostRuntime) -> Result<(), Fail> {
    let alloc = rt.alloc();
    let problem = eq_against(alloc, Mult::Many, &Term::Var(2))?;
    assert!(rt; matches!(within(alloc, 3, &problem)?, Solved::Deletion));
    Ok(())
}
