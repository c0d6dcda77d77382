//! Why a text has no tokens.

ghost use Rattle.std.specs.Prelude.{◌≡◌};
ghost use Rattle.qtt_lexer.specs.declared.errors.LexError.TheVariants.{Memory};

use qtt_base::{Fault, MemoryError};
use std::alloc::{AllocError, AllocFailed};
use thiserror::Error;

/// The first fault of a text, or want of memory.
#[derive(Debug, Drop, Error)]
pub enum LexError {
    #[error("the text has a fault of kind {}", .0.kind)]
    Fault(Fault),
    #[error("out of memory")]
    Memory,
}

impl From<MemoryError> for LexError {
    ghost from_gives = { λ _ e. e ≡ Memory };

    fn from(_error: MemoryError) -> LexError {
        LexError::Memory
    }
}

impl From<AllocError> for LexError {
    ghost from_gives = { λ _ e. e ≡ Memory };

    fn from(_error: AllocError) -> LexError {
        LexError::Memory
    }
}

impl<T: Drop> From<AllocFailed<T>> for LexError {
    ghost from_gives = { λ _ e. e ≡ Memory };

    fn from(_error: AllocFailed<T>) -> LexError {
        LexError::Memory
    }
}
