//! The lines that tell of a hole.

ghost use Rattle.std.specs.Prelude.{◌≡◌, map, IfOk, OnOk};
ghost use Rattle.qtt_term.specs.Entries.{entries};
ghost use Rattle.qtt_term.specs.View.{term as term_of};
ghost use Rattle.qtt_core_print.specs.Printing.{behind_blank, text as text_of};
ghost use Rattle.qtt_core_print.specs.Writing.{Adds};
ghost use Rattle.qtt_holes.specs.HoleText.{goal_line, hole_text, left_word, place, seen_line, seen_lines};
ghost use Rattle.qtt_holes.specs.View.{hole as hole_of, seen as seen_of};

use crate::hole::{Hole, Seen};
use qtt_base::{MemoryError, Name, Span};
use qtt_core_print::print_core;
use qtt_term::{Globals, Term};
use qtt_usage::mult::Mult;
use std::alloc::Global;

/// The lines of a hole of this module, printed with these names:
/// `hole NAME MODULE:LINE:COL : GOAL`, and a line `LEFT NAME TERM : TYPE` behind two blanks for
/// each name in sight. Each ends with byte 10.
#[tactic(auto, unfolding(crate::specs::HoleText::hole_text))]
pub fn show(
    alloc: Global,
    names: &Globals,
    module: &Name,
    hole: &Hole,
) -> Result<Vec<u8>, MemoryError>
    ensures { IfOk result (λ lines. lines.items ≡ hole_text (entries names.now) «module».now
        (hole_of hole.now)) }
{
    let mut out = Vec::new(alloc);
    put_goal(alloc, &mut out, names, module, hole)?;
    put_all_seen(alloc, &mut out, names, hole.depth, &hole.seen)?;
    Ok(out)
}

/// The line of the hole and its goal.
fn put_goal(
    alloc: Global,
    out: &mut Vec<u8>,
    names: &Globals,
    module: &Name,
    hole: &Hole,
) -> Result<(), MemoryError>
    ensures { OnOk result (Adds out.old out.new
        (goal_line (entries names.now) «module».now (hole_of hole.now))) }
{
    put(out, b"hole")?;
    put_part(out, hole.name.as_str().as_bytes())?;
    put_place(alloc, out, module, hole.span)?;
    put_part(out, b":")?;
    put_term(alloc, out, names, hole.depth, &hole.goal)?;
    put(out, b"\n")
}

/// `MODULE:LINE:COL` behind a blank.
fn put_place(alloc: Global, out: &mut Vec<u8>, module: &Name, span: Span) -> Result<(), MemoryError>
    ensures { OnOk result (Adds out.old out.new (behind_blank (place «module».now span))) }
{
    let Span { line, col, .. } = span;
    put_part(out, module.as_str().as_bytes())?;
    put(out, format!(in alloc; ":{line}:{col}")?.as_bytes())
}

/// The lines of the names in sight.
fn put_all_seen(
    alloc: Global,
    out: &mut Vec<u8>,
    names: &Globals,
    depth: u32,
    seen: &[Seen],
) -> Result<(), MemoryError>
    ensures { OnOk result (Adds out.old out.new
        (seen_lines (entries names.now) depth (map seen_of seen.now))) }
{
    for one in seen {
        put_seen(alloc, out, names, depth, one)?;
    }
    Ok(())
}

/// The line of a name in sight.
fn put_seen(
    alloc: Global,
    out: &mut Vec<u8>,
    names: &Globals,
    depth: u32,
    seen: &Seen,
) -> Result<(), MemoryError>
    ensures { OnOk result (Adds out.old out.new
        (seen_line (entries names.now) depth (seen_of seen.now))) }
{
    put(out, b" ")?;
    put_part(out, left_word(seen.left))?;
    put_part(out, seen.name.as_str().as_bytes())?;
    put_term(alloc, out, names, depth, &seen.stands)?;
    put_part(out, b":")?;
    put_term(alloc, out, names, depth, &seen.ty)?;
    put(out, b"\n")
}

/// What is left of a name.
fn left_word(left: Option<Mult>) -> &'static [u8]
    ensures { result.now ≡ left_word left }
{
    match left {
        None => b"-",
        Some(Mult::Zero) => b"0",
        Some(Mult::One) => b"1",
        Some(Mult::Many) => b"many",
    }
}

/// A term that stands behind so many binders, behind a blank.
fn put_term(
    alloc: Global,
    out: &mut Vec<u8>,
    names: &Globals,
    depth: u32,
    t: &Term,
) -> Result<(), MemoryError>
    ensures { OnOk result (Adds out.old out.new
        (behind_blank (text_of (entries names.now) depth (term_of t.now)))) }
{
    put_part(out, &print_core(alloc, names, depth, t)?)
}

fn put_part(out: &mut Vec<u8>, part: &[u8]) -> Result<(), MemoryError>
    ensures { OnOk result (Adds out.old out.new (behind_blank part.now)) }
{
    put(out, b" ")?;
    put(out, part)
}

fn put(out: &mut Vec<u8>, bytes: &[u8]) -> Result<(), MemoryError>
    ensures { OnOk result (Adds out.old out.new bytes.now) }
{
    Ok(out.extend_from_slice(bytes)?)
}
