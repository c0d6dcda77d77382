//! Terms over `Nat`, item 0 of Main, and `Vect`, item 4.

use qtt_base::{GlobalId, ModuleId};
use qtt_term::{Branch, Case, ConId, Term};
use qtt_usage::mult::Mult;
use std::alloc::Global;
use std::test::Fail;

/// An item of Main.
pub fn item(number: u32) -> GlobalId {
    GlobalId {
        module: ModuleId(1),
        item: number,
    }
}

pub fn numbers(alloc: Global) -> Term {
    Term::Fam(item(0), Vec::new(alloc))
}

/// Vectors of these elements and this length.
pub fn vectors(alloc: Global, element: u32, length: u32) -> Result<Term, Fail> {
    let parts = vec![in alloc; Term::Var(element), Term::Var(length)]?;
    Ok(Term::Fam(item(4), parts))
}

/// The successor of a term.
pub fn successor(alloc: Global, n: Term) -> Result<Term, Fail> {
    let con = ConId {
        family: item(0),
        place: 1,
    };
    Ok(Term::Con(con, Vec::new(alloc), vec![in alloc; n]?))
}

/// `plus n m`
pub fn sum(alloc: Global, n: u32, m: u32) -> Result<Term, Fail> {
    let half = Term::app(alloc, Mult::Many, Term::Def(item(3)), Term::Var(n))?;
    Ok(Term::app(alloc, Mult::Many, half, Term::Var(m))?)
}

/// The type of functions of these binders, the outermost first.
pub fn functions(alloc: Global, binders: Vec<(Mult, Term)>, goal: Term) -> Result<Term, Fail> {
    let mut ty = goal;
    for place in (0..binders.len()).rev() {
        let (mult, domain) = &binders[place];
        ty = Term::pi(alloc, *mult, domain.copy(alloc)?, ty)?;
    }
    Ok(ty)
}

/// A Case on this variable, a number, with these two branches.
pub fn number_case(alloc: Global, variable: u32, zero: Term, more: Term) -> Result<Term, Fail> {
    let first = Branch {
        fields: 0,
        body: zero,
    };
    let second = Branch {
        fields: 1,
        body: more,
    };
    let case = Case {
        mult: Mult::Many,
        family: item(0),
        params: Vec::new(alloc),
        indices: 0,
        motive: numbers(alloc),
        branches: vec![in alloc; first, second]?,
        scrutinee: Term::Var(variable),
    };
    Ok(Term::Case(Box::new(alloc, case)?))
}
