//! What `decide` answers over environments, worked by hand.

use super::alike::same_answer;
use super::terms::nested;
use qtt_confluence::decide;
use qtt_envconv::ByEnv;
use qtt_prims::Primitive;
use qtt_programs::naturals::{program, successor, sum};
use qtt_programs::terms::{call, def, int};
use qtt_term::{Answer, Globals, Term};
use std::alloc::Global;
use std::test::Fail;

/// Terms that are found equal after so many contractions.
type Row = (Term, Term, u64);

/// A sum; Int under eleven names; a definition, two functions and a match; a term and itself, which
/// goes on for ever; and two such, for which no budget here is enough.
fn rows(alloc: Global) -> Result<Vec<Row>, Fail> {
    let three = call(alloc, Primitive::AddInt, int(1), int(2))?;
    let before = sum(alloc, successor(alloc, Term::Var(1))?, Term::Var(0))?;
    let after = successor(alloc, sum(alloc, Term::Var(1), Term::Var(0))?)?;
    Ok(vec![in alloc;
        (three, int(3), 1),
        (Term::IntTy, def(21), 11),
        (before, after, 4),
        (def(8), def(8), 0),
        (def(9), def(8), u64::MAX),
    ]?)
}

/// Whether the terms of a row are found equal within `n` contractions exactly where it says so,
/// and else the answer is Spent.
fn is_as_worked(alloc: Global, env: &Globals, n: u64, row: &Row) -> Result<bool, Fail> {
    let (t, u, least) = row;
    let answer = decide(alloc, &ByEnv, n, env, t, u)?;
    let wanted = if n < *least {
        Answer::Spent
    } else {
        Answer::Equal
    };
    Ok(same_answer(&answer, &wanted))
}

/// Whether terms differ at this place, with no contraction.
fn differ_at(
    alloc: Global,
    env: &Globals,
    t: &Term,
    u: &Term,
    place: &[u32],
) -> Result<bool, Fail> {
    match decide(alloc, &ByEnv, 0, env, t, u)? {
        Answer::Different(path) => Ok(path.as_slice() == place),
        _ => Ok(false),
    }
}

#[test]
fn equal_terms_take_their_contractions(rt: HostRuntime) -> Result<(), Fail> {
    let alloc = rt.alloc();
    let env = program(alloc)?;
    for row in &rows(alloc)? {
        for n in [0, 1, 3, 4, 10, 11, 12] {
            assert!(rt; is_as_worked(alloc, &env, n, row)?, "within {n}");
        }
    }
    Ok(())
}

/// Two heads; and the second field, its first field, the second branch behind the motive, and the
/// second argument.
#[test]
fn different_terms_have_a_place(rt: HostRuntime) -> Result<(), Fail> {
    let alloc = rt.alloc();
    let env = program(alloc)?;
    let division = call(alloc, Primitive::DivInt, int(1), int(0))?;
    assert!(rt; differ_at(alloc, &env, &division, &int(0), &[])?);
    let (one, other) = (nested(alloc, 1)?, nested(alloc, 2)?);
    assert!(rt; differ_at(alloc, &env, &one, &other, &[1, 0, 2, 1])?);
    Ok(())
}
