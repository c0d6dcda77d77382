//! Where the uses of live variables are told.

ghost use Rattle.std.specs.Prelude.{◌≡◌, IfOk, map, option_copied};
ghost use Rattle.qtt_syntax.specs.View.{shape_of};
ghost use Rattle.qtt_term.specs.Scope.{name_of};
ghost use Rattle.qtt_split.specs.Plan.{clause_reports as reports_of_clause};
ghost use Rattle.qtt_split.specs.Seen.{reported_at as told_at, reports as told_by};
ghost use Rattle.qtt_split.specs.Sights.{seen_of, sights_of};
ghost use Rattle.qtt_split.specs.View.{report_of};

use crate::sights::Seen;
use crate::tree::Report;
use qtt_base::{MemoryError, Name, Span};
use qtt_syntax::Pattern;
use std::alloc::Global;

/// A copy of a name that may be there.
pub fn copied_name(name: Option<&Name>) -> Result<Option<Name>, MemoryError>
    ensures { IfOk result (λ copy. copy ≡ option_copied name.entry) }
{
    match name {
        Some(name) => Ok(Some(name.copy()?)),
        None => Ok(None),
    }
}

/// The name of a binder, where it has one.
pub fn bound_name(name: &Name) -> Option<&Name>
    ensures { option_copied result ≡ name_of name.now }
{
    if name.as_str() == "_" {
        None
    } else {
        Some(name)
    }
}

/// A report at this place for each variable of a context of so many that is live below it.
fn reported_at(
    alloc: Global,
    count: u32,
    name: Option<&Name>,
    place: Span,
    seen: &Seen,
) -> Result<Vec<Report>, MemoryError>
    ensures { IfOk result
        (λ rs. map report_of rs.items ≡ told_at count (option_copied name.entry) place
        (seen_of seen.now)) }
{
    let mut reported = Vec::new(alloc);
    for variable in (0..count).rev() {
        if seen.shows(variable) {
            reported.push(Report {
                variable,
                name: copied_name(name)?,
                place,
            })?;
        }
    }
    Ok(reported)
}

/// The reports of a pattern against what was seen, in a context of so many variables.
#[cycle(reports)]
fn reports(
    alloc: Global,
    count: u32,
    pattern: &Pattern,
    seen: &Seen,
) -> Result<Vec<Report>, MemoryError>
    ensures { IfOk result
        (λ rs. map report_of rs.items ≡ told_by count (shape_of pattern.now) (seen_of seen.now)) }
{
    match pattern {
        Pattern::Variable { name, span, .. } => {
            reported_at(alloc, count, bound_name(name), *span, seen)
        }
        Pattern::Wildcard { span, .. } => reported_at(alloc, count, None, *span, seen),
        Pattern::Dot { span, .. } => reported_at(alloc, count, None, *span, seen),
        Pattern::Constructor { arguments, .. } => match seen {
            Seen::MadeOf(_, fields) => clause_reports(alloc, count, arguments, fields),
            Seen::OpenAt(_) | Seen::ByEquation(_) => Ok(Vec::new(alloc)),
        },
    }
}

/// The reports of patterns, each against what was seen of its place.
#[cycle(reports)]
pub fn clause_reports(
    alloc: Global,
    count: u32,
    patterns: &[Pattern],
    seen: &[Seen],
) -> Result<Vec<Report>, MemoryError>
    ensures { IfOk result
        (λ rs. map report_of rs.items ≡ reports_of_clause count (map shape_of patterns.now)
        (sights_of seen.now)) }
{
    let mut told = Vec::new(alloc);
    for (place, pattern) in patterns.iter().enumerate() {
        if place >= seen.len() {
            return Ok(told);
        }
        let mut more = reports(alloc, count, pattern, &seen[place])?;
        told.append(&mut more)?;
    }
    Ok(told)
}
