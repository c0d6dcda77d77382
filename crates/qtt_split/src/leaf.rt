//! The leaf of a clause that decides.

ghost use Rattle.std.specs.Prelude.{◌≡◌, IfOk, map};
ghost use Rattle.qtt_syntax.specs.View.{shape_of};
ghost use Rattle.qtt_term.specs.View.{term};
ghost use Rattle.qtt_unify.specs.View.{binders};
ghost use Rattle.qtt_split.specs.Calls.{group_of, clause_of};
ghost use Rattle.qtt_split.specs.Columns.{column_of, row_of};
ghost use Rattle.qtt_split.specs.Node.{terms_at as terms_of};
ghost use Rattle.qtt_split.specs.Parts.{node_at, wanted};
ghost use Rattle.qtt_split.specs.Plan.{leaf_of as leaf_at, patterns_at as patterns_of_clause};
ghost use Rattle.qtt_split.specs.Sights.{sights_of};
ghost use Rattle.qtt_split.specs.View.{leaf_of as leaf_seen};

use crate::columns::{Column, Row};
use crate::planner::Planner;
use crate::reports::clause_reports;
use crate::sights::Seen;
use crate::tree::Leaf;
use qtt_base::MemoryError;
use qtt_syntax::{Clause, Pattern};
use qtt_term::telescopes::{copied_binders, number};
use qtt_term::{Converter, Ctx, Term, TermError};
use qtt_usage::mult::Mult;
use std::alloc::Global;

/// Which columns of a leaf are wanted.
#[derive(Clone, Copy, Debug, PartialEq, Eq)]
enum Wanted {
    Variables,
    Dots,
}

fn is_wanted(which: Wanted, pattern: &Pattern) -> bool
    ensures { result ≡ wanted which (shape_of pattern.now) }
{
    match (which, pattern) {
        (Wanted::Variables, Pattern::Variable { .. }) => true,
        (Wanted::Dots, Pattern::Dot { .. }) => true,
        _ => false,
    }
}

/// What the patterns that are wanted stand for, with their types.
fn terms_at(
    alloc: Global,
    which: Wanted,
    columns: &[Column<'_>],
) -> Result<Vec<(Term, Term)>, TermError>
    ensures { IfOk result
        (λ v. map (λ t. (term t.0, term t.1)) v.items ≡ terms_of (wanted which)
        (map column_of columns.now)) }
{
    let mut terms = Vec::new(alloc);
    for column in columns {
        if is_wanted(which, column.pattern) {
            terms.push((column.term.copy(alloc)?, column.ty.copy(alloc)?))?;
        }
    }
    Ok(terms)
}

/// The patterns of a clause.
fn patterns_at(clauses: &[Clause], clause: u32) -> &[Pattern]
    ensures { map shape_of result.now ≡ patterns_of_clause (map clause_of clauses.now) clause }
{
    let place = clause as usize;
    if place < clauses.len() {
        &clauses[place].patterns
    } else {
        &[]
    }
}

impl<'a, C: Converter> Planner<'a, C> {
    /// The leaf of a clause that decides in this context, where so much was seen.
    pub fn leaf_of(
        &self,
        context: &[(Mult, Term)],
        seen: &[Seen],
        goal: &Term,
        row: &Row<'_>,
    ) -> Result<Leaf, MemoryError>
        ensures { IfOk result
            (λ l. leaf_seen l ≡ leaf_at (group_of self.now)
            (node_at (binders context.now) (sights_of seen.now) (term goal.now))
            (row_of row.now)) }
    {
        let alloc = self.unifier.alloc;
        let patterns = patterns_at(self.clauses, row.clause);
        Ok(Leaf {
            clause: row.clause,
            ctx: Ctx {
                vars: copied_binders(alloc, context)?,
                names: terms_at(alloc, Wanted::Variables, &row.columns)?,
            },
            dots: terms_at(alloc, Wanted::Dots, &row.columns)?,
            goal: goal.copy(alloc)?,
            reported: clause_reports(alloc, number(context.len())?, patterns, seen)?,
        })
    }
}
