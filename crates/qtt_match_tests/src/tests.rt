//! First matches of clauses over the families of Prim.

use qtt_base::{GlobalId, ModuleId, Name, Span};
use qtt_match::first_match;
use qtt_syntax::{Clause, Expr, Mark, Named, Pattern, Target};
use qtt_term::{ConId, Globals, Term};
use std::alloc::Global;
use std::test::Fail;

const SPAN: Span = Span {
    line: 1,
    col: 1,
    len: 1,
};

fn item(number: u32) -> GlobalId {
    GlobalId {
        module: ModuleId(0),
        item: number,
    }
}

/// A constructor of a family without parameters.
fn value(alloc: Global, family: u32, place: u32, fields: Vec<Term>) -> Term {
    let con = ConId {
        family: item(family),
        place,
    };
    Term::Con(con, Vec::new(alloc), fields)
}

/// `False` or `True`, of the family that is item 4.
fn truth(alloc: Global, holds: bool) -> Term {
    value(alloc, 4, u32::from(holds), Vec::new(alloc))
}

fn small(alloc: Global, name: &str) -> Result<Pattern, Fail> {
    Ok(Pattern::Variable {
        mark: Mark::Written,
        name: Name::new(alloc, name)?,
        span: SPAN,
    })
}

/// The constructor of this number in Prim.
fn big(alloc: Global, number: u32, arguments: Vec<Pattern>) -> Result<Pattern, Fail> {
    let head = Named {
        path: Name::new(alloc, "C")?,
        target: Target::Global(item(number)),
        span: SPAN,
    };
    Ok(Pattern::Constructor {
        mark: Mark::Written,
        head,
        arguments,
        span: SPAN,
    })
}

fn clause(alloc: Global, patterns: Vec<Pattern>) -> Result<Clause, Fail> {
    Ok(Clause {
        name: Name::new(alloc, "f")?,
        patterns,
        side: Expr::Number {
            value: 1,
            span: SPAN,
        },
        span: SPAN,
    })
}

#[test]
fn the_first_of_clauses_that_overlap(rt: HostRuntime) -> Result<(), Fail> {
    let alloc = rt.alloc();
    let env = Globals::prim(alloc)?;
    let left = vec![in alloc; big(alloc, 10, Vec::new(alloc))?, small(alloc, "b")?]?;
    let right = vec![in alloc; small(alloc, "a")?, big(alloc, 10, Vec::new(alloc))?]?;
    let either = vec![in alloc; small(alloc, "a")?, small(alloc, "b")?]?;
    let clauses = vec![in alloc;
        clause(alloc, left)?,
        clause(alloc, right)?,
        clause(alloc, either)?,
    ]?;
    let both = [truth(alloc, true), truth(alloc, true)];
    let second = [truth(alloc, false), truth(alloc, true)];
    let neither = [truth(alloc, false), truth(alloc, false)];
    assert_eq!(rt; first_match(&env, &clauses, &both), Some(0));
    assert_eq!(rt; first_match(&env, &clauses, &second), Some(1));
    assert_eq!(rt; first_match(&env, &clauses, &neither), Some(2));
    assert_eq!(rt; first_match(&env, &clauses[..2], &neither), None);
    Ok(())
}

#[test]
fn fields_and_families_are_looked_at(rt: HostRuntime) -> Result<(), Fail> {
    let alloc = rt.alloc();
    let env = Globals::prim(alloc)?;
    let dotted = Pattern::Dot {
        mark: Mark::Written,
        value: Expr::Number {
            value: 1,
            span: SPAN,
        },
        span: SPAN,
    };
    let bare = vec![in alloc; big(alloc, 12, Vec::new(alloc))?]?;
    let other = vec![in alloc; big(alloc, 10, vec![in alloc; small(alloc, "s")?]?)?]?;
    let got = vec![in alloc; big(alloc, 12, vec![in alloc; dotted]?)?]?;
    let clauses = vec![in alloc;
        clause(alloc, bare)?,
        clause(alloc, other)?,
        clause(alloc, got)?,
    ]?;
    let line = [value(alloc, 5, 1, vec![in alloc; Term::IntTy]?)];
    assert_eq!(rt; first_match(&env, &clauses, &line), Some(2));
    Ok(())
}
