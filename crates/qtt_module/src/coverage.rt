//! What a tree leaves out.

ghost use Rattle.std.specs.Prelude.{◌≡◌, eqb, map};
ghost use Rattle.std.specs.List.{list_any};
ghost use Rattle.qtt_split.specs.Group.{covers as covers_asks, reaches as reaches_asks};
ghost use Rattle.qtt_split.specs.Missing.{uncovered};
ghost use Rattle.qtt_split.specs.Tree.{Leaf as LeafSeen};
ghost use Rattle.qtt_split.specs.View.{tree_of};
ghost use Rattle.qtt_module.specs.GroupCalls.{Answers, defined_of, leaf_at};

use crate::groups::Group;
use qtt_base::Span;
use qtt_cover::{first_missing, is_numbered, patterns};
use qtt_rules::{Detail, ElabError};
use qtt_split::{Leaf, Tree};
use qtt_term::{Converter, Rule};

/// The numbers of these tests among those of a group of clauses.
const COVERED: u8 = 13;

const REACHED: u8 = 14;

impl<'a, C: Converter> Group<'a, C> {
    /// The place of the first clause.
    pub fn first(&self) -> Span
        ensures { result ≡ (defined_of self.now).group.first }
    {
        match self.clauses.first() {
            Some(clause) => clause.span,
            None => Span {
                line: 0,
                col: 0,
                len: 0,
            },
        }
    }

    /// The tree covers all values, or the definition may miss some.
    pub fn covers(&self, tree: &Tree) -> Result<(), ElabError>
        ensures { Answers self.now (covers_asks (defined_of self.now)
            (uncovered (tree_of tree.now))) (λ u. u) result }
    {
        if !is_numbered(tree) {
            return Err(ElabError::Memory);
        }
        let Some(end) = first_missing(tree) else {
            return Ok(());
        };
        if self.may_miss {
            return Ok(());
        }
        let kept = Detail::Missing {
            definition: self.name.copy()?,
            patterns: patterns(self.elaborator.alloc, tree, end)?,
        };
        Err(ElabError::Refused(kept, self.first(), Rule::Clauses, COVERED))
    }

    /// Each clause has one of these leaves.
    pub fn reaches(&self, leaves: &[&Leaf]) -> Result<(), ElabError>
        ensures { Answers self.now (reaches_asks (defined_of self.now) (map leaf_at leaves.now) 0
            (defined_of self.now).group.clauses) (λ u. u) result }
    {
        for (number, clause) in self.clauses.iter().enumerate() {
            if !has_leaf(number, leaves) {
                let definition = self.name.copy()?;
                let kept = Detail::Unreachable { definition };
                return Err(ElabError::Refused(kept, clause.span, Rule::Clauses, REACHED));
            }
        }
        Ok(())
    }
}

/// Whether the clause with this number has one of these leaves.
fn has_leaf(number: usize, leaves: &[&Leaf]) -> bool
    ensures { result ≡ list_any (λ (l : LeafSeen). eqb l.clause number) (map leaf_at leaves.now) }
{
    for leaf in leaves {
        if leaf.clause as usize == number {
            return true;
        }
    }
    false
}
