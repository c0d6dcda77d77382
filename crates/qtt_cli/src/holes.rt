//! The holes of a build: what has one is not run, nor listed as code.

ghost use Rattle.std.specs.Prelude.{◌≡◌, ◌++◌, IfOk, OnOk, flat_map, map, option_map, slice_get};
ghost use Rattle.qtt_holes.specs.View.{hole as hole_of};
ghost use Rattle.qtt_module.specs.TextCalls.{accepted_of};
ghost use Rattle.qtt_build.specs.Answer.{built_of};
ghost use Rattle.qtt_outcome.specs.Stop.{hole_name, holes_of, no_holes};
ghost use Rattle.qtt_cli.specs.Stops.{Gives};
ghost use Rattle.qtt_cli.specs.Views.{name_of};

use crate::refusal::plain;
use crate::stop::Stop;
use qtt_base::{MemoryError, Name};
use qtt_build::Built;
use qtt_holes::Hole;
use qtt_module::Checked;
use qtt_rules::Detail;
use qtt_term::Rule;
use std::alloc::Global;

/// A hole, with the name of its module.
#[derive(Clone, Copy)]
struct Placed<'a> {
    module: &'a Name,
    hole: &'a Hole,
}

/// The first hole, in the order of modules and of their texts.
fn first_hole(order: &[Checked]) -> Option<Placed<'_>>
    ensures { option_map (λ p. (p.«module».now, hole_of p.hole.now)) result ≡
        slice_get (flat_map holes_of (map accepted_of order.now)) 0 }
{
    for checked in order {
        if let Some(hole) = checked.holes.first() {
            return Some(Placed {
                module: &checked.exports.name,
                hole,
            });
        }
    }
    None
}

/// Adds the names of holes.
fn add_names(names: &mut Vec<Name>, holes: &[Hole]) -> Result<(), MemoryError>
    ensures { OnOk result (names.new.items ≡ names.old.items ++
        map name_of holes.now) }
{
    for hole in holes {
        names.push(hole.name.copy()?)?;
    }
    Ok(())
}

/// The names of all holes, in order.
fn hole_names(alloc: Global, order: &[Checked]) -> Result<Vec<Name>, MemoryError>
    ensures { IfOk result (λ names. names.items ≡
        map hole_name (flat_map holes_of (map accepted_of order.now))) }
{
    let mut names = Vec::new(alloc);
    for checked in order {
        add_names(&mut names, &checked.holes)?;
    }
    Ok(names)
}

/// Refuses a build that has a hole, at the first, with the names of all.
pub(crate) fn refuse_holes(alloc: Global, built: &Built) -> Result<(), Stop>
    ensures { Gives (λ u. u) result (no_holes (built_of built.now)) }
{
    let Some(Placed { module, hole }) = first_hole(&built.order) else {
        return Ok(());
    };
    let names = hole_names(alloc, &built.order)?;
    let detail = Detail::HasHoles { names };
    Err(Stop::Refused(plain(alloc, Rule::Build, module, hole.span, detail)?))
}
