//! Where module texts come from.

ghost use Rattle.std.specs.Prelude.{◌≡◌, ◌≤◌, ℕ, List, Option, IfOk, IsErrOf, vec_len};
ghost use Rattle.qtt_edge.specs.Counts.{Counts};
ghost use Rattle.qtt_edge.specs.Vault.{Reads};

use std::alloc::Global;
use thiserror::Error;

#[derive(Clone, Copy, Debug, PartialEq, Eq, Error)]
pub enum VaultError {
    #[error("no such text")]
    Absent,
    #[error("the vault failed")]
    Failed,
    #[error("out of memory")]
    Memory,
}

/// A store of module texts by name. What it holds is told by some vaults alone.
pub trait Vault {
    ghost texts: { Self → Option (List ℕ → Option (List ℕ)) };

    ghost faults: { Self → ℕ };

    ghost misses: { Self → ℕ };

    /// The text of that name, or its first `max` bytes where it is longer.
    fn read(&mut self, alloc: Global, name: &str, max: usize) -> Result<Vec<u8>, VaultError>
        ensures same { texts self.new ≡ texts self.old }
        ensures short { IfOk result (λ text. vec_len text ≤ max) }
        ensures reads { Reads (texts self.old) name.now max result }
        ensures failed { Counts (faults self.old) (faults self.new)
            (IsErrOf result VaultError.Failed) }
        ensures absent { Counts (misses self.old) (misses self.new)
            (IsErrOf result VaultError.Absent) };
}
