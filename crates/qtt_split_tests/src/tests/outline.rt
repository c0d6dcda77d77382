//! Trees in one line.

use qtt_split::{Branch, Tree};
use qtt_syntax::Pattern;
use std::alloc::Global;
use std::test::Fail;

/// A pattern, in brackets where it has a constructor.
#[cycle(pattern)]
fn add_pattern(out: &mut String, pattern: &Pattern) -> Result<(), Fail> {
    match pattern {
        Pattern::Constructor {
            head,
            arguments,
            ..
        } => {
            out.push_str("(")?;
            out.push_str(head.path.as_str())?;
            add_patterns(out, arguments)?;
            out.push_str(")")?;
        }
        Pattern::Variable { name, .. } => out.push_str(name.as_str())?,
        Pattern::Wildcard { .. } => out.push_str("_")?,
        Pattern::Dot { .. } => out.push_str(".")?,
    }
    Ok(())
}

#[cycle(pattern)]
fn add_patterns(out: &mut String, patterns: &[Pattern]) -> Result<(), Fail> {
    for pattern in patterns {
        out.push_str(" ")?;
        add_pattern(out, pattern)?;
    }
    Ok(())
}

#[cycle(tree)]
fn add_tree(alloc: Global, out: &mut String, tree: &Tree) -> Result<(), Fail> {
    match tree {
        Tree::Leaf(leaf) => {
            let number = leaf.clause;
            out.push_str(format!(in alloc; "leaf {number}")?.as_str())?;
        }
        Tree::Split(over, branches) => {
            let variable = over.variable;
            out.push_str(format!(in alloc; "split {variable} [")?.as_str())?;
            add_branches(alloc, out, branches)?;
            out.push_str("]")?;
        }
        Tree::Delete(over, again, tree) => {
            let variable = over.variable;
            let count = again.len();
            out.push_str(format!(in alloc; "delete {variable} [{count} ")?.as_str())?;
            add_tree(alloc, out, tree)?;
            out.push_str("]")?;
        }
        Tree::Absurd(_) => out.push_str("absurd")?,
        Tree::Missing { patterns, .. } => {
            out.push_str("missing")?;
            add_patterns(out, patterns)?;
        }
    }
    Ok(())
}

/// Each branch with its numbers of fields and of binders of reverted variables.
#[cycle(tree)]
fn add_branches(alloc: Global, out: &mut String, branches: &[Branch]) -> Result<(), Fail> {
    for (place, branch) in branches.iter().enumerate() {
        if place > 0 {
            out.push_str(" | ")?;
        }
        let fields = branch.fields;
        let again = branch.again.len();
        out.push_str(format!(in alloc; "{fields} {again} ")?.as_str())?;
        add_tree(alloc, out, &branch.tree)?;
    }
    Ok(())
}

/// A tree, whose splits have their variable, and whose leaves their clause.
pub fn outline(alloc: Global, tree: &Tree) -> Result<String, Fail> {
    let mut out = String::new(alloc);
    add_tree(alloc, &mut out, tree)?;
    Ok(out)
}

/// How many leaves a tree has.
#[cycle(leaves)]
pub fn count_leaves(tree: &Tree) -> Result<u32, Fail> {
    match tree {
        Tree::Leaf(_) => Ok(1),
        Tree::Split(_, branches) => count_among(branches),
        Tree::Delete(_, _, tree) => count_leaves(tree),
        Tree::Absurd(_) | Tree::Missing { .. } => Ok(0),
    }
}

#[cycle(leaves)]
fn count_among(branches: &[Branch]) -> Result<u32, Fail> {
    let mut count: u32 = 0;
    for branch in branches {
        let Some(more) = count.checked_add(count_leaves(&branch.tree)?) else {
            return Err(Fail::from("there are too many leaves"));
        };
        count = more;
    }
    Ok(count)
}
