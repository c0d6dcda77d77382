//! The terms that case trees are assembled to.

ghost use Rattle.std.specs.Prelude.{◌≡◌, IfOk, drop, length};
ghost use Rattle.qtt_term.specs.Telescopes.{tele};
ghost use Rattle.qtt_term.specs.Term.{Trap};
ghost use Rattle.qtt_term.specs.View.{term};
ghost use Rattle.qtt_unify.specs.View.{all_terms};
ghost use Rattle.qtt_split.specs.Tree.{apps, lams, leaves, all_leaves, glue as glued_to};
ghost use Rattle.qtt_split.specs.View.{tree_of, branches_of, splitting_of, deleting_of, branch_terms, split_to, delete_to, BranchesGlued};

use crate::tree::{Branch, Deleting, Splitting, Tree};
use qtt_base::MemoryError;
use qtt_term::copying::copy_all;
use qtt_term::{Branch as CaseBranch, Case, Delete, Term, TermError};
use qtt_usage::mult::Mult;
use std::alloc::Global;

/// A term, and the right sides that its leaves left.
#[derive(Drop)]
struct Assembled<'s> {
    term: Term,
    rest: &'s [Term],
}

/// The term of a tree, with a right side for each of its leaves, in tree order. Where there are
/// fewer, the newest variable stands for each that is lacking. No more calls wait for another than
/// the tree is deep, but for those that copy and drop terms.
pub fn glue(alloc: Global, tree: &Tree, sides: &[Term]) -> Result<Term, MemoryError>
    ensures { IfOk result (λ t. term t ≡ glued_to (tree_of tree.now) (all_terms sides.now)) }
{
    Ok(glued(alloc, tree, sides)?.term)
}

/// The term of a tree, whose right sides are the first ones.
#[cycle(glued)]
fn glued<'s>(alloc: Global, tree: &Tree, sides: &'s [Term]) -> Result<Assembled<'s>, TermError>
    ensures term { IfOk result
        (λ g. term g.term ≡ glued_to (tree_of tree.now) (all_terms sides.now)) }
    ensures rest { IfOk result
        (λ g. g.rest.now ≡ drop (length (leaves (tree_of tree.now))) sides.now) }
{
    match tree {
        Tree::Leaf(_) => match sides.split_first() {
            Some((side, rest)) => Ok(Assembled {
                term: side.copy(alloc)?,
                rest,
            }),
            None => Ok(Assembled {
                term: Term::Var(0),
                rest: sides,
            }),
        },
        Tree::Split(over, branches) => {
            let parts = glued_branches(alloc, branches, sides)?;
            let term = case_of(alloc, over, parts.branches)?;
            Ok(Assembled {
                term,
                rest: parts.rest,
            })
        }
        Tree::Delete(over, again, tree) => {
            let inner = glued(alloc, tree, sides)?;
            let term = delete_of(alloc, over, bound(alloc, again, inner.term)?)?;
            Ok(Assembled {
                term,
                rest: inner.rest,
            })
        }
        Tree::Absurd(ty) => Ok(Assembled {
            term: trap(alloc, ty)?,
            rest: sides,
        }),
        Tree::Missing { goal, .. } => Ok(Assembled {
            term: trap(alloc, goal)?,
            rest: sides,
        }),
    }
}

/// The branches of a Case, and the right sides that their leaves left.
#[derive(Drop)]
struct AssembledBranches<'s> {
    branches: Vec<CaseBranch>,
    rest: &'s [Term],
}

/// The branches of a split, whose right sides are the first ones.
#[cycle(glued)]
fn glued_branches<'s>(
    alloc: Global,
    branches: &[Branch],
    sides: &'s [Term],
) -> Result<AssembledBranches<'s>, TermError>
    ensures branches { IfOk result
        (λ g. BranchesGlued (branches_of branches.now) (all_terms sides.now) g.branches.items) }
    ensures rest { IfOk result
        (λ g. g.rest.now ≡ drop (length (all_leaves (branches_of branches.now))) sides.now) }
{
    let mut glued_branches = Vec::with_capacity(alloc, branches.len())?;
    let mut rest = sides;
    for branch in branches {
        let inner = glued(alloc, &branch.tree, rest)?;
        rest = inner.rest;
        glued_branches.push(CaseBranch {
            fields: branch.fields,
            body: bound(alloc, &branch.again, inner.term)?,
        })?;
    }
    Ok(AssembledBranches {
        branches: glued_branches,
        rest,
    })
}

/// A Case of these branches, applied to the reverted variables.
fn case_of(alloc: Global, over: &Splitting, branches: Vec<CaseBranch>) -> Result<Term, TermError>
    ensures { IfOk result
        (λ t. term t ≡ split_to (splitting_of over.now) (branch_terms branches.items)) }
{
    let case = Case {
        mult: over.mult,
        family: over.family,
        params: copy_all(alloc, &over.params)?,
        indices: over.indices,
        motive: over.motive.copy(alloc)?,
        branches,
        scrutinee: Term::Var(over.variable),
    };
    applied(alloc, Term::Case(Box::new(alloc, case)?), &over.reverted)
}

/// A Delete of this branch, applied to the reverted variables.
fn delete_of(alloc: Global, over: &Deleting, branch: Term) -> Result<Term, TermError>
    ensures { IfOk result
        (λ t. term t ≡ delete_to (deleting_of over.now) (term branch)) }
{
    let delete = Delete {
        mult: over.mult,
        ty: over.ty.copy(alloc)?,
        point: over.point.copy(alloc)?,
        motive: over.motive.copy(alloc)?,
        branch,
        scrutinee: Term::Var(over.variable),
    };
    applied(
        alloc,
        Term::Delete(Box::new(alloc, delete)?),
        &over.reverted,
    )
}

fn trap(alloc: Global, ty: &Term) -> Result<Term, TermError>
    ensures { IfOk result (λ t. term t ≡ Trap (term ty.now)) }
{
    Ok(Term::Trap(Box::new(alloc, ty.copy(alloc)?)?))
}

/// A function applied to reverted variables.
fn applied(alloc: Global, function: Term, reverted: &[(Mult, u32)]) -> Result<Term, TermError>
    ensures { IfOk result (λ t. term t ≡ apps (term function) reverted.now) }
{
    let mut applied = function;
    for (mult, variable) in reverted {
        applied = Term::app(alloc, *mult, applied, Term::Var(*variable))?;
    }
    Ok(applied)
}

/// A function of these binders, the outermost first.
fn bound(alloc: Global, binders: &[(Mult, Term)], body: Term) -> Result<Term, TermError>
    ensures { IfOk result (λ t. term t ≡ lams (tele binders.now) (term body)) }
{
    let mut bound = body;
    for place in (0..binders.len()).rev() {
        let (mult, ty) = &binders[place];
        bound = Term::lam(alloc, *mult, ty.copy(alloc)?, bound)?;
    }
    Ok(bound)
}
