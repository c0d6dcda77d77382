//! Ends of a tree at which no clause is left.

use crate::{first_missing, is_numbered, patterns};
use qtt_base::{GlobalId, ModuleId, Name, Span};
use qtt_split::{Branch, Leaf, Splitting, Tree};
use qtt_syntax::{Mark, Named, Pattern, Target};
use qtt_term::{Ctx, Term};
use qtt_usage::mult::Mult;
use std::alloc::Global;
use std::test::Fail;

const SPAN: Span = Span {
    line: 6,
    col: 1,
    len: 1,
};

/// An item of Main.
fn item(number: u32) -> GlobalId {
    GlobalId {
        module: ModuleId(1),
        item: number,
    }
}

fn numbers(alloc: Global) -> Term {
    Term::Fam(item(0), Vec::new(alloc))
}

fn leaf(alloc: Global, clause: u32) -> Tree {
    Tree::Leaf(Leaf {
        clause,
        ctx: Ctx {
            vars: Vec::new(alloc),
            names: Vec::new(alloc),
        },
        dots: Vec::new(alloc),
        goal: numbers(alloc),
        reported: Vec::new(alloc),
    })
}

/// No clause is left for the pattern `Z`.
fn missing_zero(alloc: Global) -> Result<Tree, Fail> {
    let head = Named {
        path: Name::new(alloc, "Z")?,
        target: Target::Global(item(1)),
        span: SPAN,
    };
    let zero = Pattern::Constructor {
        mark: Mark::Written,
        head,
        arguments: Vec::new(alloc),
        span: SPAN,
    };
    Ok(Tree::Missing {
        goal: numbers(alloc),
        patterns: vec![in alloc; zero]?,
    })
}

/// A split of a number, with this tree for `Z` and this one for `S`.
fn split(alloc: Global, zero: Tree, more: Tree) -> Result<Tree, Fail> {
    let over = Splitting {
        variable: 0,
        mult: Mult::Many,
        family: item(0),
        params: Vec::new(alloc),
        indices: 0,
        motive: numbers(alloc),
        reverted: Vec::new(alloc),
    };
    let zero = Branch {
        fields: 0,
        again: Vec::new(alloc),
        tree: zero,
    };
    let more = Branch {
        fields: 1,
        again: Vec::new(alloc),
        tree: more,
    };
    Ok(Tree::Split(over, vec![in alloc; zero, more]?))
}

/// `pred (S n) = n`
#[test]
fn no_clause_is_for_zero(rt: HostRuntime) -> Result<(), Fail> {
    let alloc = rt.alloc();
    let tree = split(alloc, missing_zero(alloc)?, leaf(alloc, 0))?;
    assert!(rt; is_numbered(&tree));
    assert_eq!(rt; first_missing(&tree), Some(0));
    Ok(())
}

/// Leaves and excluded constructors count among the ends.
#[test]
fn ends_before_are_counted(rt: HostRuntime) -> Result<(), Fail> {
    let alloc = rt.alloc();
    let absurd = Tree::Absurd(numbers(alloc));
    let inner = split(alloc, absurd, missing_zero(alloc)?)?;
    let tree = split(alloc, leaf(alloc, 0), inner)?;
    assert!(rt; is_numbered(&tree));
    assert_eq!(rt; first_missing(&tree), Some(2));
    Ok(())
}

/// `plus Z m = m; plus (S n) m = S (plus n m)`
#[test]
fn nothing_is_missing(rt: HostRuntime) -> Result<(), Fail> {
    let alloc = rt.alloc();
    let tree = split(alloc, leaf(alloc, 0), leaf(alloc, 1))?;
    assert!(rt; is_numbered(&tree));
    assert_eq!(rt; first_missing(&tree), None);
    Ok(())
}

/// What leads to the missing clause of `pred` is the pattern `Z`, at the first clause.
#[test]
fn the_pattern_of_zero_is_told(rt: HostRuntime) -> Result<(), Fail> {
    let alloc = rt.alloc();
    let tree = split(alloc, missing_zero(alloc)?, leaf(alloc, 0))?;
    if !is_numbered(&tree) {
        return Err(Fail::from("there are too many ends"));
    }
    let Some(number) = first_missing(&tree) else {
        return Err(Fail::from("nothing is missing"));
    };
    let found = patterns(alloc, &tree, number)?;
    assert_eq!(rt; found.len(), 1);
    match &found[0] {
        Pattern::Constructor {
            head,
            arguments,
            ..
        } => {
            assert!(rt; head.path.as_str() == "Z");
            assert!(rt; head.target == Target::Global(item(1)));
            assert!(rt; arguments.is_empty());
        }
        _ => return Err(Fail::from("no constructor")),
    }
    Ok(())
}
