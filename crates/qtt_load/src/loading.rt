//! The loading of a build's modules.

ghost use Rattle.std.specs.Prelude.{◌≡◌, ◌++◌, IfOk, OnOk, IsErrOf};
ghost use Rattle.qtt_edge.specs.Counts.{Counts};
ghost use Rattle.qtt_rules.specs.Kinds.{kind_of};
ghost use Rattle.qtt_diag.specs.Kept.{refusal as kept_of};
ghost use Rattle.qtt_load.specs.Loading as loading;
ghost use Rattle.qtt_load.specs.Loading.{Stop, mentioned, noted};
ghost use Rattle.qtt_load.specs.Answer.{IsLoading, IsAbsent};

use crate::errors::LoadError;
use crate::loaded::Loaded;
use crate::module::read_module;
use crate::refusal::refusal;
use crate::text::FRONT;
use indexmap::IndexSet;
use qtt_base::{Limits, MemoryError, Name, Quantity};
use qtt_edge::Vault;
use qtt_rules::{Detail, Refusal};
use qtt_syntax::Import;
use qtt_term::Rule;
use std::alloc::Global;

/// The greatest number of modules of a build.
const MAX_MODULES: usize = 1_000;

/// The build of the named module. Each module is read once, in the order of what is loaded, and the
/// first that is not there or is refused ends it.
pub fn load<V: Vault>(alloc: Global, vault: &mut V, root: &Name) -> Result<Loaded, LoadError>
    ensures loads { IsLoading (V.texts vault.old) root.now result }
    ensures same { V.texts vault.new ≡ V.texts vault.old }
    ensures failed { Counts (V.faults vault.old) (V.faults vault.new)
        (IsErrOf result LoadError.VaultFault) }
    ensures absent { Counts (V.misses vault.old) (V.misses vault.new) (IsAbsent result) }
{
    let mut known = IndexSet::new(alloc);
    known.insert(root.copy()?)?;
    let mut texts = Vec::new(alloc);
    'modules: while let Some(name) = known.get_index(texts.len()) {
        if texts.len() == MAX_MODULES {
            return Err(LoadError::Refused(too_many(alloc, root)?));
        }
        let text = read_module(alloc, vault, name)?;
        note_all(&mut known, &text.imports)?;
        texts.push(text)?;
    }
    Ok(Loaded { texts })
}

/// Notes the modules that imports mention.
fn note_all(known: &mut IndexSet<Name>, imports: &[Import]) -> Result<(), MemoryError>
    ensures { OnOk result
        (known.new.keys ≡ known.old.keys ++ mentioned known.old.keys imports.now) }
{
    for import in imports {
        note(known, import)?;
    }
    Ok(())
}

/// Notes the module that an import mentions. One that is known counts once, and Prim for nothing.
fn note(known: &mut IndexSet<Name>, import: &Import) -> Result<(), MemoryError>
    ensures { OnOk result (known.new.keys ≡ noted known.old.keys import.now) }
{
    if import.name.as_str() == "Prim" {
        return Ok(());
    }
    known.insert(import.name.copy()?)?;
    Ok(())
}

/// The refusal in place of one reading too many.
fn too_many(alloc: Global, root: &Name) -> Result<Refusal, MemoryError>
    ensures kept { IfOk result
        (λ made. Stop.refused made.rule (kept_of made) ≡ loading.too_many root.now) }
    ensures numbered { IfOk result (λ made. made.premise ≡ kind_of made.detail) }
{
    let detail = Detail::Limit {
        quantity: Quantity::Modules,
        count: Limits::standard().modules + 1,
    };
    refusal(alloc, root.copy()?, FRONT, Rule::Build, detail)
}
