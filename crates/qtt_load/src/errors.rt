//! Why a build is not loaded, or not put in order.

use qtt_base::{MemoryError, Name, Span};
use qtt_rules::{Detail, Refusal};
use std::alloc::AllocFailed;
use thiserror::Error;

/// Why a build is not loaded.
#[derive(Debug, Drop, Error)]
pub enum LoadError {
    #[error("a module is refused")]
    Refused(Refusal),
    /// The vault has no module of this name.
    #[error("there is no such module")]
    Absent(Name),
    #[error("the vault failed")]
    VaultFault,
    #[error("out of memory")]
    Memory,
}

impl From<MemoryError> for LoadError {
    ghost use Rattle.std.specs.Prelude.{◌≡◌};
    ghost use Rattle.qtt_load.specs.declared.errors.LoadError.TheVariants.{Memory};

    ghost from_gives = { λ _ e. e ≡ Memory };

    fn from(_error: MemoryError) -> LoadError {
        LoadError::Memory
    }
}

impl<T: Drop> From<AllocFailed<T>> for LoadError {
    ghost use Rattle.std.specs.Prelude.{◌≡◌};
    ghost use Rattle.qtt_load.specs.declared.errors.LoadError.TheVariants.{Memory};

    ghost from_gives = { λ _ e. e ≡ Memory };

    fn from(_error: AllocFailed<T>) -> LoadError {
        LoadError::Memory
    }
}

/// Why a build's modules are not put in order.
#[derive(Debug, Drop, Error)]
pub enum OrderError {
    /// They import one another in a ring.
    #[error("modules import one another in a ring")]
    Refused(Refusal),
    #[error("out of memory")]
    Memory,
}

impl From<MemoryError> for OrderError {
    ghost use Rattle.std.specs.Prelude.{◌≡◌};
    ghost use Rattle.qtt_load.specs.declared.errors.OrderError.TheVariants.{Memory};

    ghost from_gives = { λ _ e. e ≡ Memory };

    fn from(_error: MemoryError) -> OrderError {
        OrderError::Memory
    }
}

/// Why a text is no module's.
#[derive(Debug, Drop, Error)]
pub enum TextError {
    /// The text is refused at this place, and this is kept.
    #[error("the text is refused")]
    Refused(Span, Detail),
    #[error("out of memory")]
    Memory,
}

impl From<MemoryError> for TextError {
    ghost use Rattle.std.specs.Prelude.{◌≡◌};
    ghost use Rattle.qtt_load.specs.declared.errors.TextError.TheVariants.{Memory};

    ghost from_gives = { λ _ e. e ≡ Memory };

    fn from(_error: MemoryError) -> TextError {
        TextError::Memory
    }
}
