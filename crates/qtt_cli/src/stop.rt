//! Why what was asked for is not carried out.

ghost use Rattle.std.specs.Prelude.{◌≡◌};
ghost use Rattle.qtt_cli.specs.declared.stop.Stop.TheVariants.{Memory};
ghost use Rattle.qtt_cli.specs.Stops.{of_build, of_module};

use crate::device::Device;
use qtt_base::{MemoryError, Name};
use qtt_build::BuildError;
use qtt_module::ModuleError;
use qtt_rules::Refusal;
use std::alloc::AllocError;
use thiserror::Error;

/// Why what was asked for is not carried out, or not to its end.
#[derive(Debug, Drop, Error)]
pub enum Stop {
    #[error("the words ask for nothing")]
    Usage,
    /// There is no module of this name.
    #[error("there is no such module")]
    Absent(Name),
    #[error("the program is refused")]
    Refused(Refusal),
    #[error("a device failed")]
    Failed(Device),
    #[error("out of memory")]
    Memory,
}

impl From<MemoryError> for Stop {
    ghost from_gives = { λ _ stop. stop ≡ Memory };

    fn from(_error: MemoryError) -> Stop {
        Stop::Memory
    }
}

impl From<AllocError> for Stop {
    ghost from_gives = { λ _ stop. stop ≡ Memory };

    fn from(_error: AllocError) -> Stop {
        Stop::Memory
    }
}

impl From<BuildError> for Stop {
    ghost from_gives = { λ e stop. stop ≡ of_build e };

    fn from(error: BuildError) -> Stop {
        match error {
            BuildError::Refused(refusal) => Stop::Refused(refusal),
            BuildError::Absent(name) => Stop::Absent(name),
            BuildError::VaultFault => Stop::Failed(Device::Vault),
            BuildError::Memory => Stop::Memory,
        }
    }
}

impl From<ModuleError> for Stop {
    ghost from_gives = { λ e stop. stop ≡ of_module e };

    fn from(error: ModuleError) -> Stop {
        match error {
            ModuleError::Refused(refusal) => Stop::Refused(refusal),
            ModuleError::Memory => Stop::Memory,
        }
    }
}
