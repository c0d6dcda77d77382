//! The case tree of a definition by clauses.

ghost use Rattle.std.specs.Prelude.{◌≡◌, IfOk, map};
ghost use Rattle.qtt_base.specs.Limits.{standard};
ghost use Rattle.qtt_term.specs.Contexts.{part};
ghost use Rattle.qtt_term.specs.Entries.{entries};
ghost use Rattle.qtt_term.specs.Scope.{name_of};
ghost use Rattle.qtt_term.specs.View.{term};
ghost use Rattle.qtt_split.specs.Calls.{Answers, clause_of, group_of, opened_of};
ghost use Rattle.qtt_split.specs.Nodes.{node_of};
ghost use Rattle.qtt_split.specs.Plan.{plan as planned_by, start as start_at};
ghost use Rattle.qtt_split.specs.Planned.{Plans, first_place as first_span, group_with, planned_of};

use crate::labels::labels_for;
use crate::node::Node;
use crate::opening::Opened;
use crate::patterns::all_constructors;
use crate::planner::Planner;
use crate::start::{start_rows, start_sights};
use crate::substitution::sum;
use crate::tree::Tree;
use qtt_base::{Limits, MemoryError, Name, Span};
use qtt_rules::ElabError;
use qtt_syntax::Clause;
use qtt_term::telescopes::{copied_binders, number};
use qtt_term::{Converter, Globals, Sigma, Term};
use qtt_unify::Unifier;
use qtt_usage::mult::Mult;
use std::alloc::Global;

/// The binders that a definition's type opens, the outermost first, and the tree under them.
#[derive(Debug, Drop)]
pub struct Planned {
    pub opened: Vec<(Mult, Term)>,
    pub tree: Tree,
}

/// Where the first clause stands.
fn first_place(clauses: &[Clause]) -> Span
    ensures { result ≡ first_span (map clause_of clauses.now) }
{
    match clauses.first() {
        Some(clause) => clause.span,
        None => Span {
            line: 0,
            col: 0,
            len: 0,
        },
    }
}

impl<'a, C: Converter> Planner<'a, C> {
    /// The first node, under opened binders.
    fn start(&self, opened: &Opened, labels: &'a [Name]) -> Result<Node<'a>, MemoryError>
        ensures { IfOk result
            (λ n. node_of n ≡ start_at (group_of self.now) (map name_of labels.now)
            (opened_of opened.now)) }
    {
        let alloc = self.unifier.alloc;
        let context = copied_binders(alloc, &opened.binders)?;
        let count = context.len();
        Ok(Node {
            labels: labels_for(alloc, count, labels)?,
            seen: start_sights(alloc, number(count)?)?,
            goal: opened.goal.copy(alloc)?,
            rows: start_rows(alloc, &context, self.clauses)?,
            context,
        })
    }

    /// The plan of a definition of this type, whose written binders have these names.
    fn planned(&self, ty: &Term, labels: &'a [Name]) -> Result<Planned, ElabError>
        ensures { Answers self.now
            (planned_by (group_of self.now) (term ty.now) (map name_of labels.now)) planned_of
            result }
    {
        let width = self.width();
        self.so_wide(width)?;
        self.clauses_full()?;
        let opened = self.opened(width, ty)?;
        let node = self.start(&opened, labels)?;
        let splits = sum(all_constructors(self.clauses)?, 1)?;
        let grown = self.grow(splits, node, self.limit)?;
        Ok(Planned {
            opened: opened.binders,
            tree: grown.tree,
        })
    }
}

/// The case tree of a definition by these clauses, in a part, whose type is closed and whose
/// written binders have these names, `_` where one has none. Each question of heads, readings or
/// comparisons has `budget` contractions. The refusal is that of the first premise that is false
/// or of the first question that is spent, in the order of the rules; a tree of too many leaves is
/// refused before it is made. No more calls wait for another than the tree is deep, but for those
/// that read patterns, and those that copy and drop terms.
pub fn plan<'a, C: Converter>(
    alloc: Global,
    converter: &'a C,
    budget: u64,
    globals: &'a Globals,
    sigma: Sigma,
    clauses: &'a [Clause],
    ty: &Term,
    labels: &'a [Name],
) -> Result<Planned, ElabError>
    ensures { Plans (group_with (entries globals.now) (part sigma) clauses.now) budget
        (term ty.now) (map name_of labels.now) result }
{
    let planner = Planner {
        unifier: Unifier {
            alloc,
            converter,
            budget,
            globals,
        },
        sigma,
        clauses,
        first: first_place(clauses),
        limit: Limits::standard().leaves as u32,
    };
    planner.planned(ty, labels)
}
