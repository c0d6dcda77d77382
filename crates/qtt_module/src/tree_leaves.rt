//! The leaves of a case tree.

ghost use Rattle.std.specs.Prelude.{◌≡◌, ◌++◌, IfOk, map};
ghost use Rattle.qtt_split.specs.Tree.{leaves as leaves_of, all_leaves as leaves_of_all};
ghost use Rattle.qtt_split.specs.View.{tree_of, branches_of};
ghost use Rattle.qtt_module.specs.GroupCalls.{leaf_at};

use qtt_base::MemoryError;
use qtt_split::{Branch, Leaf, Tree};

/// The leaves of a tree, in tree order, behind others.
#[cycle(leaves)]
pub fn leaves_in<'t>(tree: &'t Tree, before: Vec<&'t Leaf>) -> Result<Vec<&'t Leaf>, MemoryError>
    ensures { IfOk result
        (λ leaves. map leaf_at leaves.items ≡ map leaf_at before.entry.items ++
        leaves_of (tree_of tree.now)) }
{
    let mut leaves = before;
    match tree {
        Tree::Leaf(leaf) => {
            leaves.push(leaf)?;
            Ok(leaves)
        }
        Tree::Split(_, branches) => leaves_among(branches, leaves),
        Tree::Delete(_, _, tree) => leaves_in(tree, leaves),
        Tree::Absurd(_) | Tree::Missing { .. } => Ok(leaves),
    }
}

/// The leaves of the branches of a split, behind others.
#[cycle(leaves)]
fn leaves_among<'t>(
    branches: &'t [Branch],
    before: Vec<&'t Leaf>,
) -> Result<Vec<&'t Leaf>, MemoryError>
    ensures { IfOk result
        (λ leaves. map leaf_at leaves.items ≡ map leaf_at before.entry.items ++
        leaves_of_all (branches_of branches.now)) }
{
    let mut leaves = before;
    for branch in branches {
        leaves = leaves_in(&branch.tree, leaves)?;
    }
    Ok(leaves)
}
