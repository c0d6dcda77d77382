//! Why tokens are no text.

ghost use Rattle.std.specs.Prelude.{◌≡◌};
ghost use Rattle.qtt_grammar.specs.declared.errors.GrammarError.TheVariants.{Memory};

use qtt_base::{Fault, MemoryError};
use std::alloc::{AllocError, AllocFailed};
use thiserror::Error;

/// The first bad token, the first limit that is passed, or want of memory.
#[derive(Debug, Drop, Error)]
pub enum GrammarError {
    #[error("the text has a fault of kind {}", .0.kind)]
    Fault(Fault),
    #[error("out of memory")]
    Memory,
}

impl From<MemoryError> for GrammarError {
    ghost from_gives = { λ _ e. e ≡ Memory };

    fn from(_error: MemoryError) -> GrammarError {
        GrammarError::Memory
    }
}

impl From<AllocError> for GrammarError {
    ghost from_gives = { λ _ e. e ≡ Memory };

    fn from(_error: AllocError) -> GrammarError {
        GrammarError::Memory
    }
}

impl<T: Drop> From<AllocFailed<T>> for GrammarError {
    ghost from_gives = { λ _ e. e ≡ Memory };

    fn from(_error: AllocFailed<T>) -> GrammarError {
        GrammarError::Memory
    }
}
