//! What index equations refuse with.

ghost use Rattle.std.specs.Prelude.{◌≡◌};
ghost use Rattle.qtt_unify.specs.declared.error.UnifyError.TheVariants.{Memory};

use qtt_base::MemoryError;
use qtt_term::{Question, TermError};
use std::alloc::{AllocError, AllocFailed};
use thiserror::Error;

/// Why index equations have no answer.
#[derive(Debug, Drop, Error)]
pub enum UnifyError {
    /// The first question whose answer was Spent.
    #[error("a question is not answered within its contractions")]
    Spent(Question),
    #[error("out of memory")]
    Memory,
}

impl From<AllocError> for UnifyError {
    ghost from_gives = { λ _ e. e ≡ Memory };

    fn from(_error: AllocError) -> UnifyError {
        UnifyError::Memory
    }
}

impl<T: Drop> From<AllocFailed<T>> for UnifyError {
    ghost from_gives = { λ _ e. e ≡ Memory };

    fn from(_error: AllocFailed<T>) -> UnifyError {
        UnifyError::Memory
    }
}

impl From<MemoryError> for UnifyError {
    ghost from_gives = { λ _ e. e ≡ Memory };

    fn from(_error: MemoryError) -> UnifyError {
        UnifyError::Memory
    }
}

impl From<TermError> for UnifyError {
    ghost from_gives = { λ _ e. e ≡ Memory };

    fn from(_error: TermError) -> UnifyError {
        UnifyError::Memory
    }
}
