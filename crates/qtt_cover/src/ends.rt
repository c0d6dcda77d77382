//! The ends of a case tree.

ghost use Rattle.std.specs.Prelude.{◌≡◌, ◌↔◌, ℕ, Some, None, IfOk, map};
ghost use Rattle.std.specs.Bool.{Decides};
ghost use Rattle.qtt_syntax.specs.View.{shape_of};
ghost use Rattle.qtt_split.specs.View.{tree_of, branches_of};
ghost use Rattle.qtt_split.specs.Missing.{ends, all_ends, first_missing as missing_first, patterns as missing_patterns};
ghost use Rattle.qtt_cover.specs.Ends.{IsNumbered, IsMissing, IsCovered, Counts, Meets, Finds};

use crate::copying::copied_all;
use qtt_base::MemoryError;
use qtt_split::{Branch, Tree};
use qtt_syntax::Pattern;
use std::alloc::Global;

/// Whether each end of a tree has a number of 32 bits.
pub fn is_numbered(tree: &Tree) -> bool
    ensures { Decides result (IsNumbered (tree_of tree.now)) }
{
    count(tree, 0).is_some()
}

/// The number of ends behind those of a tree, where it has 32 bits.
#[cycle(count)]
fn count(tree: &Tree, before: u32) -> Option<u32>
    ensures { Counts before (ends (tree_of tree.now)) result }
{
    match tree {
        Tree::Leaf(_) | Tree::Absurd(_) | Tree::Missing { .. } => before.checked_add(1),
        Tree::Split(_, branches) => count_all(branches, before),
        Tree::Delete(_, _, tree) => count(tree, before),
    }
}

#[cycle(count)]
fn count_all(branches: &[Branch], before: u32) -> Option<u32>
    ensures { Counts before (all_ends (branches_of branches.now)) result }
{
    let mut counted = before;
    for branch in branches {
        match count(&branch.tree, counted) {
            Some(behind) => counted = behind,
            None => return None,
        }
    }
    Some(counted)
}

/// The number of the first end of a tree at which no clause is left.
pub fn first_missing(tree: &Tree) -> Option<u32>
    requires { IsNumbered (tree_of tree.now) }
    ensures value { result ≡ missing_first (tree_of tree.now) }
    ensures some { (n : ℕ) → result ≡ Some n → IsMissing (tree_of tree.now) n }
    ensures none { (result ≡ None) ↔ IsCovered (tree_of tree.now) }
{
    match first_end(tree, 0) {
        First::Missing(number) => Some(number),
        First::Behind(_) => None,
        First::Beyond => unreachable!(),
    }
}

/// The first end that is missing, or the number behind all ends, or that this has more bits.
enum First {
    Missing(u32),
    Behind(u32),
    Beyond,
}

/// The first missing one of a tree's ends, which have the numbers from `before` on.
#[cycle(first_end)]
fn first_end(tree: &Tree, before: u32) -> First
    ensures { Meets before (ends (tree_of tree.now)) result }
{
    match tree {
        Tree::Leaf(_) | Tree::Absurd(_) => match before.checked_add(1) {
            Some(behind) => First::Behind(behind),
            None => First::Beyond,
        },
        Tree::Missing { .. } => First::Missing(before),
        Tree::Split(_, branches) => first_among(branches, before),
        Tree::Delete(_, _, tree) => first_end(tree, before),
    }
}

#[cycle(first_end)]
fn first_among(branches: &[Branch], before: u32) -> First
    ensures { Meets before (all_ends (branches_of branches.now)) result }
{
    let mut passed = before;
    for branch in branches {
        match first_end(&branch.tree, passed) {
            First::Missing(number) => return First::Missing(number),
            First::Behind(number) => passed = number,
            First::Beyond => return First::Beyond,
        }
    }
    First::Behind(passed)
}

/// The patterns that lead to the end with this number, where no clause is left.
pub fn patterns(alloc: Global, tree: &Tree, leaf: u32) -> Result<Vec<Pattern>, MemoryError>
    requires { IsMissing (tree_of tree.now) leaf }
    ensures { IfOk result
        (λ ps. missing_patterns (tree_of tree.now) leaf ≡ Some (map shape_of ps.items)) }
{
    match end_at(tree, leaf) {
        End::Missing(patterns) => copied_all(alloc, patterns),
        _ => unreachable!(),
    }
}

/// The end with a number, or how many numbers it stands behind all ends.
#[derive(Drop)]
enum End<'t> {
    Missing(&'t [Pattern]),
    Other,
    Behind(u32),
}

/// An end of a tree.
#[cycle(end_at)]
fn end_at<'t>(tree: &'t Tree, number: u32) -> End<'t>
    ensures { Finds number (ends (tree_of tree.now)) result }
{
    match tree {
        Tree::Leaf(_) | Tree::Absurd(_) => match number.checked_sub(1) {
            Some(behind) => End::Behind(behind),
            None => End::Other,
        },
        Tree::Missing { patterns, .. } => match number.checked_sub(1) {
            Some(behind) => End::Behind(behind),
            None => End::Missing(patterns),
        },
        Tree::Split(_, branches) => end_among(branches, number),
        Tree::Delete(_, _, tree) => end_at(tree, number),
    }
}

#[cycle(end_at)]
fn end_among<'t>(branches: &'t [Branch], number: u32) -> End<'t>
    ensures { Finds number (all_ends (branches_of branches.now)) result }
{
    let mut behind = number;
    for branch in branches {
        match end_at(&branch.tree, behind) {
            End::Behind(number) => behind = number,
            End::Missing(patterns) => return End::Missing(patterns),
            End::Other => return End::Other,
        }
    }
    End::Behind(behind)
}
