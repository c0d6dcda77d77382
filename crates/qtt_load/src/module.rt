//! One module, read from the vault.

ghost use Rattle.std.specs.Prelude.{◌≡◌, IsErrOf};
ghost use Rattle.qtt_edge.specs.Counts.{Counts};
ghost use Rattle.qtt_load.specs.Answer.{IsRead, IsAbsent};

use crate::errors::{LoadError, TextError};
use crate::refusal::refusal;
use crate::text::{MAX_TEXT, tree_of_module};
use qtt_base::Name;
use qtt_edge::{Vault, VaultError};
use qtt_syntax::ModuleText;
use qtt_term::Rule;
use std::alloc::Global;

/// The module of this name, as the vault has it.
pub fn read_module<V: Vault>(
    alloc: Global,
    vault: &mut V,
    name: &Name,
) -> Result<ModuleText, LoadError>
    ensures read { IsRead (V.texts vault.old) name.now result }
    ensures same { V.texts vault.new ≡ V.texts vault.old }
    ensures failed { Counts (V.faults vault.old) (V.faults vault.new)
        (IsErrOf result LoadError.VaultFault) }
    ensures absent { Counts (V.misses vault.old) (V.misses vault.new) (IsAbsent result) }
{
    match vault.read(alloc, name.as_str(), MAX_TEXT + 1) {
        Ok(text) => match tree_of_module(alloc, name, &text) {
            Ok(tree) => Ok(tree),
            Err(TextError::Refused(span, detail)) => {
                let refusal = refusal(alloc, name.copy()?, span, Rule::Text, detail)?;
                Err(LoadError::Refused(refusal))
            }
            Err(TextError::Memory) => Err(LoadError::Memory),
        },
        Err(VaultError::Absent) => Err(LoadError::Absent(name.copy()?)),
        Err(VaultError::Failed) => Err(LoadError::VaultFault),
        Err(VaultError::Memory) => Err(LoadError::Memory),
    }
}
