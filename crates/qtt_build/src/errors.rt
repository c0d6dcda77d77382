//! Why nothing is built.

ghost use Rattle.std.specs.Prelude.{◌≡◌};
ghost use Rattle.qtt_build.specs.Answer.{of_load, of_module};

use qtt_base::Name;
use qtt_load::LoadError;
use qtt_module::ModuleError;
use qtt_rules::Refusal;
use thiserror::Error;

/// Why nothing is built.
#[derive(Debug, Drop, Error)]
pub enum BuildError {
    #[error("a module is refused")]
    Refused(Refusal),
    /// The vault has no module of this name.
    #[error("there is no such module")]
    Absent(Name),
    #[error("the vault failed")]
    VaultFault,
    #[error("out of memory")]
    Memory,
}

impl From<LoadError> for BuildError {
    ghost from_gives = { λ e made. made ≡ of_load e };

    fn from(error: LoadError) -> BuildError {
        match error {
            LoadError::Refused(refusal) => BuildError::Refused(refusal),
            LoadError::Absent(name) => BuildError::Absent(name),
            LoadError::VaultFault => BuildError::VaultFault,
            LoadError::Memory => BuildError::Memory,
        }
    }
}

impl From<ModuleError> for BuildError {
    ghost from_gives = { λ e made. made ≡ of_module e };

    fn from(error: ModuleError) -> BuildError {
        match error {
            ModuleError::Refused(refusal) => BuildError::Refused(refusal),
            ModuleError::Memory => BuildError::Memory,
        }
    }
}
