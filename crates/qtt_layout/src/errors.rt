//! Why tokens have no blocks.

ghost use Rattle.std.specs.Prelude.{◌≡◌};
ghost use Rattle.qtt_layout.specs.declared.errors.LayoutError.TheVariants.{Memory};

use qtt_base::{Fault, MemoryError};
use std::alloc::{AllocError, AllocFailed};
use thiserror::Error;

/// The first token left of the outermost block, or want of memory.
#[derive(Debug, Drop, Error)]
pub enum LayoutError {
    #[error("the tokens have a fault of kind {}", .0.kind)]
    Fault(Fault),
    #[error("out of memory")]
    Memory,
}

impl From<MemoryError> for LayoutError {
    ghost from_gives = { λ _ e. e ≡ Memory };

    fn from(_error: MemoryError) -> LayoutError {
        LayoutError::Memory
    }
}

impl From<AllocError> for LayoutError {
    ghost from_gives = { λ _ e. e ≡ Memory };

    fn from(_error: AllocError) -> LayoutError {
        LayoutError::Memory
    }
}

impl<T: Drop> From<AllocFailed<T>> for LayoutError {
    ghost from_gives = { λ _ e. e ≡ Memory };

    fn from(_error: AllocFailed<T>) -> LayoutError {
        LayoutError::Memory
    }
}
