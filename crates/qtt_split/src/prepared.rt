//! Nodes before their branches.

ghost use Rattle.std.specs.Prelude.{◌≡◌, [], IfOk, map};
ghost use Rattle.qtt_term.specs.Signature.{Refl};
ghost use Rattle.qtt_term.specs.Telescopes.{tele};
ghost use Rattle.qtt_term.specs.View.{term};
ghost use Rattle.qtt_unify.specs.View.{all_terms, binders, verdict as verdict_of, deletion as deletion_of};
ghost use Rattle.qtt_split.specs.Branch.{again as binds_again, branch_node, stands};
ghost use Rattle.qtt_split.specs.Calls.{Answers, group_of, test_of};
ghost use Rattle.qtt_split.specs.Columns.{examined_of};
ghost use Rattle.qtt_split.specs.Divisions.{division_of, stuck_cause};
ghost use Rattle.qtt_split.specs.Nodes.{node_of};
ghost use Rattle.qtt_split.specs.Preparations.{prepared_of, split_in};
ghost use Rattle.qtt_split.specs.Prepared.{reverts as reverts_at, split_reverts as split_reverts_at, motive_at as motive_in, split_parts as split_asked, deletion_parts as deletion_asked, stuck_parts as stuck_asked, parts_at as parts_asked, prepared as prepared_by};
ghost use Rattle.qtt_split.specs.Split.{refl_id};
ghost use Rattle.qtt_split.specs.Tests.{at};

use crate::columns::{Decision, Examined, decide, first_examined};
use crate::division::Division;
use crate::ends::Grown;
use crate::frames::Aim;
use crate::free::free_variables;
use crate::motive::{deletion_motive, motive, reverted_goal, some_form};
use crate::node::{Entered, Entry, Node};
use crate::planner::{Planner, Test, refused};
use crate::reverting::variables_in;
use crate::tree::Deleting;
use crate::verdicts::{Stuck, first_stuck};
use qtt_base::{GlobalId, MemoryError, ModuleId, Span};
use qtt_rules::{Detail, ElabError};
use qtt_term::{ConId, Converter, Term, TermError};
use qtt_unify::{Deletion, Verdict};
use qtt_usage::mult::Mult;
use std::alloc::Global;

/// `Refl`, the constructor of `Eq`.
const REFL: ConId = ConId {
    family: GlobalId {
        module: ModuleId(0),
        item: 13,
    },
    place: 0,
};

/// A split before its branches: what its constructors come to, none of which is stuck, its motive,
/// and the variables that each branch binds again.
#[derive(Drop)]
pub struct Split {
    pub division: Division,
    pub verdicts: Vec<Verdict>,
    pub motive: Term,
    pub reverted: Vec<(Mult, u32)>,
}

/// A node before its branches.
#[derive(Drop)]
pub enum Prepared<'t> {
    /// It has none: a clause has its leaf here, or no clause is left.
    Ended(Grown),
    Split(Node<'t>, Split),
    Delete(Deleting, Entered<'t>),
}

/// The proof that this point equals itself.
fn proof_of(alloc: Global, ty: &Term, point: &Term) -> Result<Term, TermError>
    ensures { IfOk result (λ t. term t ≡ Refl (term ty.now) (term point.now)) }
{
    let params = vec![in alloc; ty.copy(alloc)?, point.copy(alloc)?]?;
    Ok(Term::Con(REFL, params, Vec::new(alloc)))
}

/// The branch of a deletion, where the proof stands for its variable.
fn deletion_branch<'t>(
    alloc: Global,
    node: &Node<'t>,
    variable: u32,
    reverted: &[(Mult, u32)],
    proof: &Term,
) -> Result<Entered<'t>, MemoryError>
    ensures node { IfOk result
        (λ e. node_of e.node ≡ branch_node (node_of node.now) [] [] variable refl_id
        (term proof.now) [] reverted.now) }
    ensures again { IfOk result
        (λ e. tele e.again.items ≡ binds_again (binders node.now.context.items) reverted.now
        (stands variable (term proof.now) [] 0)) }
{
    let entry = Entry {
        fields: &[],
        names: &[],
        variable,
        con: REFL,
        solved: &[],
        reverted,
    };
    node.branch(alloc, &entry, proof)
}

impl<'a, C: Converter> Planner<'a, C> {
    /// The variables that a split of one binds again, where these are solved; none of the terms
    /// mentions one of them.
    fn reverts(
        &self,
        node: &Node<'_>,
        variable: u32,
        free: &[u32],
        terms: &[Term],
        span: Span,
        test: Test,
    ) -> Result<Vec<(Mult, u32)>, ElabError>
        ensures { Answers self.now
            (reverts_at (at span (test_of test)) (node_of node.now) variable free.now
            (all_terms terms.now)) (λ rs. rs.items) result }
    {
        let alloc = self.unifier.alloc;
        let reverted = node.reverted(alloc, variable, free)?;
        let variables = variables_in(alloc, &reverted)?;
        let depth = node.depth()?;
        self.unmentioned(depth, &variables, terms, span, test)?;
        Ok(reverted)
    }

    /// The motive of a split.
    fn motive_at(
        &self,
        node: &Node<'_>,
        division: &Division,
        reverted: &[(Mult, u32)],
    ) -> Result<Term, ElabError>
        ensures { Answers self.now
            (motive_in (group_of self.now) (node_of node.now)
            (division_of (binders node.now.context.items) division.now) reverted.now) term result }
    {
        let alloc = self.unifier.alloc;
        let goal = reverted_goal(alloc, &node.context, reverted, &node.goal)?;
        let asked = some_form(&division.targets);
        let level = self.level_where(asked, &node.context, &goal, division.span)?;
        let aim = Aim {
            globals: self.unifier.globals,
            family: division.family,
            params: &division.params,
            level,
        };
        Ok(motive(alloc, &aim, &division.targets, division.variable, &goal)?)
    }

    /// The variables that a split binds again; none of its parameters mentions one of them.
    fn split_reverts(
        &self,
        node: &Node<'_>,
        division: &Division,
    ) -> Result<Vec<(Mult, u32)>, ElabError>
        ensures { Answers self.now
            (split_reverts_at (node_of node.now)
            (division_of (binders node.now.context.items) division.now)) (λ rs. rs.items) result }
    {
        let free = free_variables(self.unifier.alloc, &division.over(node))?;
        let params = &division.params;
        let span = division.span;
        self.reverts(
            node,
            division.variable,
            &free,
            params,
            span,
            Test::Parameters,
        )
    }

    /// A split none of whose constructors is stuck.
    fn split_parts(
        &self,
        node: &Node<'_>,
        division: Division,
        verdicts: Vec<Verdict>,
    ) -> Result<Split, ElabError>
        ensures { Answers self.now
            (split_asked (group_of self.now) (node_of node.now)
            (division_of (binders node.now.context.items) division)
            (map verdict_of verdicts.items)) (split_in (group_of self.now) node.now) result }
    {
        let reverted = self.split_reverts(node, &division)?;
        let motive = self.motive_at(node, &division, &reverted)?;
        Ok(Split {
            division,
            verdicts,
            motive,
            reverted,
        })
    }

    /// A deletion whose index and point are the same.
    fn deletion_parts(
        &self,
        node: &Node<'a>,
        division: &Division,
        found: &Deletion<'_>,
    ) -> Result<Prepared<'a>, ElabError>
        ensures { Answers self.now
            (deletion_asked (node_of node.now)
            (division_of (binders node.now.context.items) division.now) (deletion_of found.now))
            (prepared_of (group_of self.now)) result }
    {
        let alloc = self.unifier.alloc;
        let variable = division.variable;
        let ends = vec![in alloc; found.ty.copy(alloc)?, found.point.copy(alloc)?]?;
        let span = division.span;
        let reverted = self.reverts(node, variable, &[], &ends, span, Test::Endpoints)?;
        let goal = reverted_goal(alloc, &node.context, &reverted, &node.goal)?;
        let motive = deletion_motive(alloc, variable, &goal)?;
        let proof = proof_of(alloc, found.ty, found.point)?;
        let entered = deletion_branch(alloc, node, variable, &reverted, &proof)?;
        let over = Deleting {
            variable,
            mult: division.mult,
            ty: found.ty.copy(alloc)?,
            point: found.point.copy(alloc)?,
            motive,
            reverted,
        };
        Ok(Prepared::Delete(over, entered))
    }

    /// A split with a constructor that is stuck, which may be a deletion.
    fn stuck_parts(
        &self,
        node: &Node<'a>,
        division: &Division,
        stuck: &Stuck<'_>,
    ) -> Result<Prepared<'a>, ElabError>
        ensures { Answers self.now
            (stuck_asked (node_of node.now)
            (division_of (binders node.now.context.items) division.now) (stuck_cause stuck.now))
            (prepared_of (group_of self.now)) result }
    {
        let found = self.deletion(division.family, &division.over(node), division.span)?;
        let Some(found) = found else {
            let alloc = self.unifier.alloc;
            let kept = Detail::PatternStuck {
                depth: stuck.depth,
                left: stuck.left.copy(alloc)?,
                right: stuck.right.copy(alloc)?,
            };
            return Err(refused(kept, division.span, Test::Equations));
        };
        self.deletion_parts(node, division, &found)
    }

    /// A split or a deletion of the variable of a constructor pattern.
    fn parts_at(&self, node: Node<'a>, x: &Examined<'_>) -> Result<Prepared<'a>, ElabError>
        ensures { Answers self.now
            (parts_asked (group_of self.now) (node_of node.entry) (examined_of x.now))
            (prepared_of (group_of self.now)) result }
    {
        let division = self.division(&node, x)?;
        let verdicts = self.verdicts(&node, &division)?;
        if let Some(stuck) = first_stuck(&verdicts) {
            return self.stuck_parts(&node, &division, &stuck);
        }
        let split = self.split_parts(&node, division, verdicts)?;
        Ok(Prepared::Split(node, split))
    }

    /// A node before its branches, where so many leaves more there may be.
    pub fn prepared(&self, node: Node<'a>, left: u32) -> Result<Prepared<'a>, ElabError>
        ensures { Answers self.now (prepared_by (group_of self.now) (node_of node.entry) left)
            (prepared_of (group_of self.now)) result }
    {
        let alloc = self.unifier.alloc;
        let decision = decide(alloc, self.unifier.globals, &node.rows)?;
        match decision {
            Decision::NoneLeft => Ok(Prepared::Ended(self.no_clause(&node, left)?)),
            Decision::StuckOn(span, term) => {
                let kept = Detail::PatternStuck {
                    depth: node.depth()?,
                    left: term.copy(alloc)?,
                    right: term,
                };
                Err(refused(kept, span, Test::OnVariable))
            }
            Decision::Decides(row, behind) => match first_examined(&row.columns) {
                Some(x) => self.parts_at(node.decided(row, behind)?, &x),
                None => Ok(Prepared::Ended(self.leaf(&node, &row, left)?)),
            },
        }
    }
}
