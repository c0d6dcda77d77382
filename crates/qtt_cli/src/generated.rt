//! Generated modules, as a vault.

ghost use Rattle.std.specs.Prelude.{◌≡◌, ◌≤◌, Some, IfOk, IsErrOf, codes, map, option_map, vec_len};
ghost use Rattle.qtt_edge.specs.Counts.{Counts};
ghost use Rattle.qtt_edge.specs.Vault.{Reads};
ghost use Rattle.qtt_gen.specs.Seen.{seen};
ghost use Rattle.qtt_gen_load.specs.Texts.{generated_texts, texts_in};
ghost use Rattle.qtt_cli.specs.Views.{told};

use qtt_base::{MemoryError, Name};
use qtt_edge::{Vault, VaultError};
use qtt_gen::generate;
use qtt_words::Generation;
use std::alloc::Global;

/// Module texts, each with its name. What is asked for and not there is counted.
#[derive(Drop)]
pub(crate) struct GeneratedVault {
    modules: Vec<(Name, Vec<u8>)>,
    misses: u64,
}

impl GeneratedVault {
    /// The modules of a number.
    pub fn new(alloc: Global, generation: &Generation) -> Result<GeneratedVault, MemoryError>
        ensures { IfOk result
            (λ v. told v ≡ Some (generated_texts generation.now.number)) }
    {
        Ok(GeneratedVault {
            modules: generate(alloc, generation.number)?,
            misses: 0,
        })
    }

    /// The text of this name.
    fn text(&self, name: &str) -> Option<&[u8]>
        ensures { option_map (λ text. text.now) result ≡
            texts_in (map seen self.now.modules.items) name.now }
    {
        for (found, text) in &self.modules {
            if found.as_str() == name {
                return Some(text);
            }
        }
        None
    }
}

impl Vault for GeneratedVault {
    ghost texts = { told };

    ghost faults = { λ _. 0 };

    ghost misses = { λ s. s.misses };

    fn read(&mut self, alloc: Global, name: &str, max: usize) -> Result<Vec<u8>, VaultError>
        ensures same { told self.new ≡ told self.old }
        ensures short { IfOk result (λ text. vec_len text ≤ max) }
        ensures reads { Reads (told self.old) name.now max result }
        ensures failed { Counts 0 0 (IsErrOf result VaultError.Failed) }
        ensures absent { Counts self.old.misses self.new.misses (IsErrOf result VaultError.Absent) }
    {
        let Some(text) = self.text(name) else {
            self.misses = self.misses.saturating_add(1);
            return Err(VaultError::Absent);
        };
        let len = max.min(text.len());
        text[..len].to_vec(alloc).map_err(|_| VaultError::Memory)
    }
}

/// The name of the module that is run.
pub(crate) fn main_name(alloc: Global) -> Result<Name, MemoryError>
    ensures { IfOk result (λ name. name ≡ codes "Main") }
{
    Name::new(alloc, "Main").map_err(|_| MemoryError)
}
