//! The names for which a node's variables were bound.

ghost use Rattle.std.specs.Prelude.{◌≡◌, IfOk, map};
ghost use Rattle.std.specs.Option.{option_copied};
ghost use Rattle.qtt_split.specs.Branch.{label_at as name_at};
ghost use Rattle.qtt_split.specs.Labels.{labels_of, newest_labels};
ghost use Rattle.qtt_split.specs.Plan.{labels_for as names_for};
ghost use Rattle.qtt_term.specs.Scope.{name_of};

use crate::reports::bound_name;
use qtt_base::{MemoryError, Name};
use std::alloc::Global;

/// The names of a constructor's fields.
pub fn field_labels<'t>(
    alloc: Global,
    fields: &'t [Name],
) -> Result<Vec<Option<&'t Name>>, MemoryError>
    ensures { IfOk result (λ ls. labels_of ls.items ≡ map name_of fields.now) }
{
    let mut labels = Vec::with_capacity(alloc, fields.len())?;
    for name in fields {
        labels.push(bound_name(name))?;
    }
    Ok(labels)
}

/// The name of a binder, where one is written.
fn written_label(written: &[Name], place: usize) -> Option<&Name>
    ensures { option_copied result ≡ name_at (map name_of written.now) place }
{
    if place < written.len() {
        bound_name(&written[place])
    } else {
        None
    }
}

/// The names of so many binders; those behind the written ones have none.
pub fn labels_for<'t>(
    alloc: Global,
    count: usize,
    written: &'t [Name],
) -> Result<Vec<Option<&'t Name>>, MemoryError>
    ensures { IfOk result
        (λ ls. labels_of ls.items ≡ names_for count (map name_of written.now)) }
{
    let mut labels = Vec::with_capacity(alloc, count)?;
    for place in 0..count {
        labels.push(written_label(written, place))?;
    }
    Ok(labels)
}

/// The name for which a variable was bound.
pub fn label_at<'t>(labels: &[Option<&'t Name>], variable: u32) -> Option<&'t Name>
    ensures { option_copied result ≡ name_at (newest_labels labels.now) variable }
{
    let place = variable as usize;
    if place < labels.len() {
        labels[labels.len() - 1 - place]
    } else {
        None
    }
}
