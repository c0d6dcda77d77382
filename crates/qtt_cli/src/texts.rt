//! What `check`, `core` and `gen` put.

ghost use Rattle.std.specs.Prelude.{◌≡◌, IfOk, OnOk, flat_map, map, sum_by};
ghost use Rattle.qtt_holes.specs.HoleText.{hole_text};
ghost use Rattle.qtt_holes.specs.View.{hole as hole_of};
ghost use Rattle.qtt_module.specs.TextCalls.{accepted_of};
ghost use Rattle.qtt_term.specs.Entries.{entries};
ghost use Rattle.qtt_build.specs.Answer.{built_of};
ghost use Rattle.qtt_outcome.specs.Outcome.{check_text as check_of, checked_text, core_lines as lines_of, core_text as core_of, count_line};
ghost use Rattle.qtt_cli.specs.Texts.{Adds, count_lines, counts_of};

use qtt_base::{MemoryError, ModuleId, Name};
use qtt_build::{Built, module_named};
use qtt_core_print::print_definition;
use qtt_holes::{Hole, show};
use qtt_module::Checked;
use qtt_term::Globals;
use std::alloc::Global;

/// A line for each module, by rank and name, with the number of its definitions, and the lines of
/// its holes.
pub(crate) fn check_text(alloc: Global, built: &Built) -> Result<Vec<u8>, MemoryError>
    ensures { IfOk result (λ text. text.items ≡ check_of (built_of built.now)) }
{
    let mut text = Vec::new(alloc);
    for checked in &built.order {
        put_module(alloc, &mut text, &built.env, checked)?;
    }
    Ok(text)
}

/// The lines of a module.
fn put_module(
    alloc: Global,
    text: &mut Vec<u8>,
    names: &Globals,
    checked: &Checked,
) -> Result<(), MemoryError>
    ensures { OnOk result (Adds text.old text.new
        (checked_text (entries names.now) (accepted_of checked.now))) }
{
    let name = &checked.exports.name;
    let count = checked.definitions;
    text.extend_from_slice(format!(in alloc; "checked {name} {count}\n")?.as_bytes())?;
    put_holes(alloc, text, names, name, &checked.holes)
}

/// The lines of the holes of a module.
fn put_holes(
    alloc: Global,
    text: &mut Vec<u8>,
    names: &Globals,
    module: &Name,
    holes: &[Hole],
) -> Result<(), MemoryError>
    ensures { OnOk result (Adds text.old text.new
        (flat_map (hole_text (entries names.now) «module».now) (map hole_of holes.now))) }
{
    for hole in holes {
        text.extend_from_slice(&show(alloc, names, module, hole)?)?;
    }
    Ok(())
}

/// A line for each definition of the module of this name, in order.
pub(crate) fn core_text(alloc: Global, built: &Built, root: &Name) -> Result<Vec<u8>, MemoryError>
    ensures { IfOk result (λ text. text.items ≡ core_of (built_of built.now) root.now) }
{
    match module_named(&built.order, root) {
        Some(checked) => core_lines(alloc, &built.env, checked.exports.module),
        None => Ok(Vec::new(alloc)),
    }
}

/// A line for each definition of a module, in order.
fn core_lines(alloc: Global, env: &Globals, module: ModuleId) -> Result<Vec<u8>, MemoryError>
    ensures { IfOk result (λ text. text.items ≡ lines_of (entries env.now) «module») }
{
    let mut text = Vec::new(alloc);
    for definition in env.definitions() {
        if definition.id.module == module {
            text.extend_from_slice(&print_definition(alloc, env, definition)?)?;
            text.push(b'\n')?;
        }
    }
    Ok(text)
}

/// How many definitions the modules have together.
fn definitions(order: &[Checked]) -> u128
    ensures { result ≡ sum_by (λ c. c.definitions) order.now }
{
    let mut sum = 0;
    for checked in order {
        sum += checked.definitions as u128;
    }
    sum
}

/// The lines that `gen` puts behind a run that ended.
pub(crate) fn count_lines(
    alloc: Global,
    order: &[Checked],
    contractions: u64,
) -> Result<Vec<u8>, MemoryError>
    ensures { IfOk result
        (λ text. text.items ≡ counts_of (map accepted_of order.now) contractions) }
{
    counts_text(alloc, order.len(), definitions(order), contractions)
}

/// A line for each of these counts.
fn counts_text(
    alloc: Global,
    modules: usize,
    definitions: u128,
    contractions: u64,
) -> Result<Vec<u8>, MemoryError>
    ensures { IfOk result
        (λ text. text.items ≡ count_lines modules definitions contractions) }
{
    let mut text = Vec::new(alloc);
    put_count(alloc, &mut text, "modules", modules as u128)?;
    put_count(alloc, &mut text, "definitions", definitions)?;
    put_count(alloc, &mut text, "contractions", contractions as u128)?;
    Ok(text)
}

/// The line of a count.
fn put_count(alloc: Global, text: &mut Vec<u8>, word: &str, count: u128) -> Result<(), MemoryError>
    ensures { OnOk result (Adds text.old text.new (count_line word.now count)) }
{
    Ok(text.extend_from_slice(format!(in alloc; "{word} {count}\n")?.as_bytes())?)
}
