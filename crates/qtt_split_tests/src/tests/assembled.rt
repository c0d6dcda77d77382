//! The trees of two worked definitions, and the terms that they are assembled to.

use super::terms::{item, number_case, numbers, successor, sum, vectors};
use qtt_split::{Branch, Deleting, Leaf, Splitting, Tree, glue};
use qtt_term::{Branch as CaseBranch, Case, ConId, Ctx, Delete, Term};
use qtt_usage::mult::Mult;
use std::alloc::Global;
use std::test::Fail;

/// A leaf of this clause. What else it keeps is in no assembled term.
fn leaf(alloc: Global, clause: u32) -> Tree {
    Tree::Leaf(Leaf {
        clause,
        ctx: Ctx {
            vars: Vec::new(alloc),
            names: Vec::new(alloc),
        },
        dots: Vec::new(alloc),
        goal: Term::IntTy,
        reported: Vec::new(alloc),
    })
}

/// A branch with so many fields that binds nothing again.
fn branch(alloc: Global, fields: u32, tree: Tree) -> Branch {
    Branch {
        fields,
        again: Vec::new(alloc),
        tree,
    }
}

/// A split of this variable, a number.
fn number_split(alloc: Global, variable: u32) -> Splitting {
    Splitting {
        variable,
        mult: Mult::Many,
        family: item(0),
        params: Vec::new(alloc),
        indices: 0,
        motive: numbers(alloc),
        reverted: Vec::new(alloc),
    }
}

/// `plus Z m = m; plus (S n) m = S (plus n m)`
#[test]
fn addition_is_one_case(rt: HostRuntime) -> Result<(), Fail> {
    let alloc = rt.alloc();
    let zero = branch(alloc, 0, leaf(alloc, 0));
    let more = branch(alloc, 1, leaf(alloc, 1));
    let tree = Tree::Split(number_split(alloc, 1), vec![in alloc; zero, more]?);
    let recursive = successor(alloc, sum(alloc, 0, 1)?)?;
    let sides = [Term::Var(0), recursive.copy(alloc)?];
    let term = glue(alloc, &tree, &sides)?;
    let wanted = number_case(alloc, 1, Term::Var(0), recursive)?;
    assert!(rt; term.same(&wanted));
    Ok(())
}

/// Under the index and the vector: `(1 ys : Vect a n) -> Vect a (plus m n)`.
fn append_motive(alloc: Global) -> Result<Term, Fail> {
    let parts = vec![in alloc; Term::Var(7), sum(alloc, 2, 5)?]?;
    let whole = Term::Fam(item(4), parts);
    Ok(Term::pi(alloc, Mult::One, vectors(alloc, 6, 4)?, whole)?)
}

/// `Cons (plus k n) x (append a k n xs ys)`
fn longer(alloc: Global) -> Result<Term, Fail> {
    let mut rest = Term::Def(item(7));
    for (mult, variable) in [
        (Mult::Zero, 8),
        (Mult::Zero, 3),
        (Mult::Zero, 6),
        (Mult::One, 1),
        (Mult::One, 0),
    ] {
        rest = Term::app(alloc, mult, rest, Term::Var(variable))?;
    }
    let con = ConId {
        family: item(4),
        place: 1,
    };
    let fields = vec![in alloc; sum(alloc, 3, 6)?, Term::Var(2), rest]?;
    Ok(Term::Con(con, vec![in alloc; Term::Var(8)]?, fields))
}

/// A branch under so many fields, which binds the second vector again, of this element and length.
fn again(
    alloc: Global,
    fields: u32,
    element: u32,
    length: u32,
    tree: Tree,
) -> Result<Branch, Fail> {
    Ok(Branch {
        fields,
        again: vec![in alloc; (Mult::One, vectors(alloc, element, length)?)]?,
        tree,
    })
}

/// `append a _ n Nil ys = ys`
/// `append a _ n (Cons k x xs) ys = Cons (plus k n) x (append a k n xs ys)`
#[test]
fn the_linear_vector_is_bound_again(rt: HostRuntime) -> Result<(), Fail> {
    let alloc = rt.alloc();
    let over = Splitting {
        variable: 1,
        mult: Mult::One,
        family: item(4),
        params: vec![in alloc; Term::Var(4)]?,
        indices: 1,
        motive: append_motive(alloc)?,
        reverted: vec![in alloc; (Mult::One, 0)]?,
    };
    let nil = again(alloc, 0, 4, 2, leaf(alloc, 0))?;
    let cons = again(alloc, 3, 7, 5, leaf(alloc, 1))?;
    let tree = Tree::Split(over, vec![in alloc; nil, cons]?);
    let sides = [Term::Var(0), longer(alloc)?];
    let term = glue(alloc, &tree, &sides)?;
    let first = Term::lam(alloc, Mult::One, vectors(alloc, 4, 2)?, Term::Var(0))?;
    let second = Term::lam(alloc, Mult::One, vectors(alloc, 7, 5)?, longer(alloc)?)?;
    let case = Case {
        mult: Mult::One,
        family: item(4),
        params: vec![in alloc; Term::Var(4)]?,
        indices: 1,
        motive: append_motive(alloc)?,
        branches: vec![in alloc;
            CaseBranch {
                fields: 0,
                body: first
            },
            CaseBranch {
                fields: 3,
                body: second
            },
        ]?,
        scrutinee: Term::Var(1),
    };
    let case = Term::Case(Box::new(alloc, case)?);
    let wanted = Term::app(alloc, Mult::One, case, Term::Var(0))?;
    assert!(rt; term.same(&wanted));
    Ok(())
}

/// `f a x Refl = 1`, where the proof says that `x` equals itself.
#[test]
fn a_deletion_has_one_branch(rt: HostRuntime) -> Result<(), Fail> {
    let alloc = rt.alloc();
    let over = Deleting {
        variable: 0,
        mult: Mult::Many,
        ty: Term::Var(2),
        point: Term::Var(1),
        motive: Term::IntTy,
        reverted: Vec::new(alloc),
    };
    let inner = Box::new(alloc, leaf(alloc, 0))?;
    let tree = Tree::Delete(over, Vec::new(alloc), inner);
    let term = glue(alloc, &tree, &[Term::Var(1)])?;
    let delete = Delete {
        mult: Mult::Many,
        ty: Term::Var(2),
        point: Term::Var(1),
        motive: Term::IntTy,
        branch: Term::Var(1),
        scrutinee: Term::Var(0),
    };
    let wanted = Term::Delete(Box::new(alloc, delete)?);
    assert!(rt; term.same(&wanted));
    Ok(())
}

/// `pred (S n) = n`: no clause is for Z, and its branch is a trap.
#[test]
fn a_missing_clause_is_a_trap(rt: HostRuntime) -> Result<(), Fail> {
    let alloc = rt.alloc();
    let missing = Tree::Missing {
        goal: numbers(alloc),
        patterns: Vec::new(alloc),
    };
    let zero = branch(alloc, 0, missing);
    let more = branch(alloc, 1, leaf(alloc, 0));
    let tree = Tree::Split(number_split(alloc, 0), vec![in alloc; zero, more]?);
    let term = glue(alloc, &tree, &[Term::Var(0)])?;
    let trap = Term::Trap(Box::new(alloc, numbers(alloc))?);
    let wanted = number_case(alloc, 0, trap, Term::Var(0))?;
    assert!(rt; term.same(&wanted));
    Ok(())
}
