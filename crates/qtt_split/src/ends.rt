//! Where a case tree ends: at the leaf of a clause, and where no clause is left.

ghost use Rattle.qtt_split.specs.Calls.{Answers, group_of};
ghost use Rattle.qtt_split.specs.Columns.{row_of};
ghost use Rattle.qtt_split.specs.Ends.{grown_of, leaf_grown, none_grown};
ghost use Rattle.qtt_split.specs.Nodes.{node_of};

use crate::columns::Row;
use crate::leading::pattern_list;
use crate::node::Node;
use crate::planner::Planner;
use crate::tree::Tree;
use qtt_rules::ElabError;
use qtt_term::Converter;

/// A tree, and how many leaves more there may be.
#[derive(Drop)]
pub struct Grown {
    pub tree: Tree,
    pub left: u32,
}

impl<'a, C: Converter> Planner<'a, C> {
    /// The leaf of a clause that decides at a node.
    pub fn leaf(&self, node: &Node<'_>, row: &Row<'_>, left: u32) -> Result<Grown, ElabError>
        ensures { Answers self.now
            (leaf_grown (group_of self.now) (node_of node.now) (row_of row.now) left) grown_of
            result }
    {
        let less = self.count_leaf(left)?;
        let leaf = self.leaf_of(&node.context, &node.seen, &node.goal, row)?;
        Ok(Grown {
            tree: Tree::Leaf(leaf),
            left: less,
        })
    }

    /// No clause is left at a node.
    pub fn no_clause(&self, node: &Node<'_>, left: u32) -> Result<Grown, ElabError>
        ensures { Answers self.now (none_grown (group_of self.now) (node_of node.now) left)
            grown_of result }
    {
        let alloc = self.unifier.alloc;
        let less = self.count_leaf(left)?;
        let patterns = pattern_list(alloc, self.unifier.globals, self.first, &node.seen)?;
        let goal = node.goal.copy(alloc)?;
        Ok(Grown {
            tree: Tree::Missing { goal, patterns },
            left: less,
        })
    }
}
