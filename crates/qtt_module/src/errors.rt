//! Why a module is not accepted.

ghost use Rattle.std.specs.Prelude.{◌≡◌};
ghost use Rattle.qtt_module.specs.declared.errors.ModuleError.TheVariants.{Memory};

use qtt_base::MemoryError;
use qtt_rules::Refusal;
use thiserror::Error;

/// Why a module is not accepted.
#[derive(Debug, Drop, Error)]
pub enum ModuleError {
    #[error("the module is refused")]
    Refused(Refusal),
    #[error("out of memory")]
    Memory,
}

impl From<MemoryError> for ModuleError {
    ghost from_gives = { λ _ e. e ≡ Memory };

    fn from(_error: MemoryError) -> ModuleError {
        ModuleError::Memory
    }
}
