//! Case trees, node by node.

ghost use Rattle.std.specs.Prelude.{◌≡◌, [], IfOk, map};
ghost use Rattle.qtt_term.specs.Entries.{entries, env};
ghost use Rattle.qtt_term.specs.Judgement.{Ctx};
ghost use Rattle.qtt_term.specs.Signature.{fam_at};
ghost use Rattle.qtt_term.specs.Telescopes.{tele};
ghost use Rattle.qtt_term.specs.View.{term};
ghost use Rattle.qtt_unify.specs.View.{verdict as verdict_of};
ghost use Rattle.qtt_split.specs.Calls.{Answers, group_of};
ghost use Rattle.qtt_split.specs.Divisions.{division_of};
ghost use Rattle.qtt_split.specs.Ends.{grown_of};
ghost use Rattle.qtt_split.specs.Node.{Node as NodeAt};
ghost use Rattle.qtt_split.specs.Nodes.{node_of};
ghost use Rattle.qtt_split.specs.Preparations.{grown_branch_of, grown_branches_of};
ghost use Rattle.qtt_split.specs.Prepared.{absurd_branch, branch as one_branch, grow_below, site as site_at};
ghost use Rattle.qtt_split.specs.Sites.{site_of, signature_in};
ghost use Rattle.qtt_split.specs.Split.{Group, grown as grown_to, branches as branches_in, splitting};
ghost use Rattle.qtt_split.specs.Tree.{Tree as TreeAt};
ghost use Rattle.qtt_split.specs.View.{deleting_of};

use crate::division::Division;
use crate::ends::Grown;
use crate::node::Node;
use crate::planner::Planner;
use crate::prepared::{Prepared, Split};
use crate::site::Site;
use crate::tree::{Branch, Deleting, Splitting, Tree};
use crate::verdicts::constructors_of;
use qtt_base::MemoryError;
use qtt_rules::ElabError;
use qtt_term::telescopes::number;
use qtt_term::{Constructor, Converter, Term, TermError};
use qtt_unify::Verdict;
use qtt_usage::mult::Mult;
use std::alloc::Global;

/// A branch, and how many leaves more there may be.
#[derive(Drop)]
pub struct GrownBranch {
    pub branch: Branch,
    pub left: u32,
}

/// The branches of a split, and how many leaves more there may be.
#[derive(Drop)]
pub struct GrownBranches {
    pub branches: Vec<Branch>,
    pub left: u32,
}

/// The tree where no split more is made.
fn missing(alloc: Global, goal: Term, left: u32) -> Grown
    ensures { grown_of result ≡ grown_to (TreeAt.missing (term goal) []) left }
{
    let patterns = Vec::new(alloc);
    Grown {
        tree: Tree::Missing { goal, patterns },
        left,
    }
}

/// The tree of a split with these branches.
fn split_tree(
    division: Division,
    motive: Term,
    reverted: Vec<(Mult, u32)>,
    grown: GrownBranches,
) -> Result<Grown, TermError>
    ensures { (G : Group) (N : NodeAt) (Γ : Ctx) → IfOk result
        (λ g. grown_of g ≡ grown_to (TreeAt.split
        (splitting (site_at G N (division_of Γ division) reverted.items (term motive)))
        (grown_branches_of grown).branches) (grown_branches_of grown).left) }
{
    let over = Splitting {
        variable: division.variable,
        mult: division.mult,
        family: division.family,
        indices: number(division.targets.len())?,
        params: division.params,
        motive,
        reverted,
    };
    Ok(Grown {
        tree: Tree::Split(over, grown.branches),
        left: grown.left,
    })
}

/// The tree of a deletion with this branch.
fn deletion_tree(
    alloc: Global,
    over: Deleting,
    again: Vec<(Mult, Term)>,
    grown: Grown,
) -> Result<Grown, MemoryError>
    ensures { IfOk result
        (λ g. grown_of g ≡ grown_to (TreeAt.delete (deleting_of over) (tele again.items)
        (grown_of grown).tree) (grown_of grown).left) }
{
    let inner = Box::new(alloc, grown.tree)?;
    Ok(Grown {
        tree: Tree::Delete(over, again, inner),
        left: grown.left,
    })
}

impl<'a, C: Converter> Planner<'a, C> {
    /// The branch of a constructor that clashes.
    fn absurd(
        &self,
        site: &Site<'_, 'a>,
        place: u32,
        constructor: &Constructor,
        left: u32,
    ) -> Result<GrownBranch, ElabError>
        ensures { Answers self.now
            (absurd_branch (site_of (group_of self.now) site.now)
            (signature_in self.now site.now place constructor.now) left) grown_branch_of result }
    {
        let less = self.count_leaf(left)?;
        let ty = self.excluded(site, place, constructor)?;
        let branch = Branch {
            fields: number(constructor.fields.len())?,
            again: Vec::new(self.unifier.alloc),
            tree: Tree::Absurd(ty),
        };
        Ok(GrownBranch { branch, left: less })
    }

    /// The branch of a constructor of a split, by its number.
    #[cycle(grow)]
    fn branch(
        &self,
        splits: u32,
        site: &Site<'_, 'a>,
        place: u32,
        constructor: &Constructor,
        verdict: &Verdict,
        left: u32,
    ) -> Result<GrownBranch, ElabError>
        ensures { Answers self.now
            (one_branch (grow_below splits (group_of self.now))
            (site_of (group_of self.now) site.now) place
            (signature_in self.now site.now place constructor.now) (verdict_of verdict.now) left)
            grown_branch_of result }
    {
        match verdict {
            Verdict::Solved(solved) => {
                let fields = number(constructor.fields.len())?;
                let entered = self.solved(site, place, constructor, solved)?;
                let grown = self.grow(splits, entered.node, left)?;
                let branch = Branch {
                    fields,
                    again: entered.again,
                    tree: grown.tree,
                };
                let left = grown.left;
                Ok(GrownBranch { branch, left })
            }
            Verdict::Clash | Verdict::Stuck(..) => self.absurd(site, place, constructor, left),
        }
    }

    /// The branches of a split, in the order of the constructors.
    #[cycle(grow)]
    fn branches(
        &self,
        splits: u32,
        site: &Site<'_, 'a>,
        verdicts: &[Verdict],
        left: u32,
    ) -> Result<GrownBranches, ElabError>
        ensures { Answers self.now
            (branches_in (grow_below splits (group_of self.now))
            (site_of (group_of self.now) site.now) 0
            (fam_at (env (entries self.now.unifier.globals.now))
            site.now.division.now.family).constructors
            (map verdict_of verdicts.now) left) grown_branches_of result }
    {
        let constructors = constructors_of(self.unifier.globals, site.division.family);
        let mut branches = Vec::with_capacity(self.unifier.alloc, constructors.len())?;
        let mut left = left;
        for (place, constructor) in constructors.iter().enumerate() {
            if place >= verdicts.len() {
                return Ok(GrownBranches { branches, left });
            }
            let verdict = &verdicts[place];
            let grown = self.branch(splits, site, number(place)?, constructor, verdict, left)?;
            branches.push(grown.branch)?;
            left = grown.left;
        }
        Ok(GrownBranches { branches, left })
    }

    /// The tree of a node with fewer than so many splits one below another, where so many leaves
    /// more there may be. Its node stands as long as its branches are made, and no more calls wait
    /// for another than the tree is deep.
    #[cycle(grow)]
    pub fn grow(&self, splits: u32, node: Node<'a>, left: u32) -> Result<Grown, ElabError>
        ensures { Answers self.now
            (grow_below splits (group_of self.now) (node_of node.entry) left) grown_of result }
    {
        let alloc = self.unifier.alloc;
        if splits == 0 {
            return Ok(missing(alloc, node.goal, left));
        }
        let prepared = self.prepared(node, left)?;
        match prepared {
            Prepared::Ended(grown) => Ok(grown),
            Prepared::Split(node, split) => {
                let Split {
                    division,
                    verdicts,
                    motive,
                    reverted,
                } = split;
                let site = Site {
                    node: &node,
                    division: &division,
                    motive,
                    reverted,
                };
                let grown = self.branches(splits - 1, &site, &verdicts, left)?;
                let Site {
                    motive,
                    reverted,
                    ..
                } = site;
                Ok(split_tree(division, motive, reverted, grown)?)
            }
            Prepared::Delete(over, entered) => {
                let grown = self.grow(splits - 1, entered.node, left)?;
                Ok(deletion_tree(alloc, over, entered.again, grown)?)
            }
        }
    }
}
