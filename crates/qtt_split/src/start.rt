//! The first node of a tree.

ghost use Rattle.std.specs.Prelude.{◌≡◌, IfOk, length, map};
ghost use Rattle.qtt_syntax.specs.View.{shape_of};
ghost use Rattle.qtt_unify.specs.View.{binders};
ghost use Rattle.qtt_split.specs.Calls.{clause_of};
ghost use Rattle.qtt_split.specs.Columns.{column_of, row_of};
ghost use Rattle.qtt_split.specs.Plan.{start_columns as first_columns, start_rows as first_rows, start_sights as first_sights};
ghost use Rattle.qtt_split.specs.Seen.{oldest_first};
ghost use Rattle.qtt_split.specs.Sights.{sights_of};

use crate::columns::{Column, Row};
use crate::context::type_at;
use crate::sights::Seen;
use qtt_base::MemoryError;
use qtt_syntax::{Clause, Pattern};
use qtt_term::telescopes::number;
use qtt_term::{Term, TermError};
use qtt_usage::mult::Mult;
use std::alloc::Global;

/// A column for each pattern, which stands for its binder of the context.
fn start_columns<'t>(
    alloc: Global,
    context: &[(Mult, Term)],
    patterns: &'t [Pattern],
) -> Result<Vec<Column<'t>>, TermError>
    ensures { IfOk result
        (λ cs. map column_of cs.items ≡ first_columns (binders context.now)
        (map shape_of patterns.now) (oldest_first (length (binders context.now)))) }
{
    let mut columns = Vec::new(alloc);
    for (place, pattern) in patterns.iter().enumerate() {
        if place >= context.len() {
            return Ok(columns);
        }
        let variable = number(context.len() - 1 - place)?;
        columns.push(Column {
            pattern,
            term: Term::Var(variable),
            ty: type_at(alloc, context, variable)?,
        })?;
    }
    Ok(columns)
}

/// A row for each clause, by its number from 0.
pub fn start_rows<'t>(
    alloc: Global,
    context: &[(Mult, Term)],
    clauses: &'t [Clause],
) -> Result<Vec<Row<'t>>, TermError>
    ensures { IfOk result
        (λ rs. map row_of rs.items ≡ first_rows (binders context.now) 0
        (map clause_of clauses.now)) }
{
    let mut rows = Vec::with_capacity(alloc, clauses.len())?;
    for (place, clause) in clauses.iter().enumerate() {
        rows.push(Row {
            clause: number(place)?,
            columns: start_columns(alloc, context, &clause.patterns)?,
        })?;
    }
    Ok(rows)
}

/// Of each of so many binders nothing was seen yet.
pub fn start_sights(alloc: Global, count: u32) -> Result<Vec<Seen>, MemoryError>
    ensures { IfOk result (λ ss. sights_of ss.items ≡ first_sights (oldest_first count)) }
{
    let mut seen = Vec::new(alloc);
    for variable in (0..count).rev() {
        seen.push(Seen::OpenAt(variable))?;
    }
    Ok(seen)
}
