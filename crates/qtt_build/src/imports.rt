//! What the modules that are built give to those that import them.

ghost use Rattle.std.specs.Prelude.{◌≡◌, ◌++◌, map, IfOk, OnOk};
ghost use Rattle.std.specs.List.{filter_map};
ghost use Rattle.qtt_load.specs.Loading.{mentioned, noted};
ghost use Rattle.qtt_names.specs.Exports.{exports_of};
ghost use Rattle.qtt_module.specs.TextCalls.{accepted_of};
ghost use Rattle.qtt_build.specs.Built.{exports_named, imports_of};

use crate::order::module_named;
use indexmap::IndexSet;
use qtt_base::{MemoryError, Name};
use qtt_module::Checked;
use qtt_names::Exports;
use qtt_syntax::Import;
use std::alloc::Global;

/// Notes the modules that imports mention, each once. Prim counts for nothing.
fn note_all(known: &mut IndexSet<Name>, imports: &[Import]) -> Result<(), MemoryError>
    ensures { OnOk result
        (known.new.keys ≡ known.old.keys ++ mentioned known.old.keys imports.now) }
{
    for import in imports {
        note(known, import)?;
    }
    Ok(())
}

/// Notes the module that an import mentions.
fn note(known: &mut IndexSet<Name>, import: &Import) -> Result<(), MemoryError>
    ensures { OnOk result (known.new.keys ≡ noted known.old.keys import.now) }
{
    if import.name.as_str() == "Prim" {
        return Ok(());
    }
    known.insert(import.name.copy()?)?;
    Ok(())
}

/// What the modules of these names give, where they are built.
fn given(alloc: Global, order: &[Checked], names: &[Name]) -> Result<Vec<Exports>, MemoryError>
    ensures { IfOk result (λ v. map exports_of v.items
        ≡ filter_map (exports_named (map accepted_of order.now)) names.now) }
{
    let mut exports = Vec::with_capacity(alloc, names.len())?;
    for name in names {
        if let Some(checked) = module_named(order, name) {
            exports.push(checked.exports.copy(alloc)?)?;
        }
    }
    Ok(exports)
}

/// What the modules of these imports give, each once, without Prim.
pub(crate) fn imports_for(
    alloc: Global,
    order: &[Checked],
    imports: &[Import],
) -> Result<Vec<Exports>, MemoryError>
    ensures { IfOk result (λ v. map exports_of v.items
        ≡ imports_of (map accepted_of order.now) imports.now) }
{
    let mut names = IndexSet::new(alloc);
    note_all(&mut names, imports)?;
    given(alloc, order, names.as_slice())
}
