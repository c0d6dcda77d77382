//! What elaboration refuses with.

ghost use Rattle.std.specs.Prelude.{◌≡◌};
ghost use Rattle.qtt_rules.specs.declared.errors.ElabError.TheVariants.{Memory};

use crate::detail::Detail;
use qtt_base::{MemoryError, Span};
use qtt_term::{Rule, TermError};
use qtt_usage::usage::UsageError;
use std::alloc::{AllocError, AllocFailed};
use thiserror::Error;

/// Why an expression is not elaborated.
#[derive(Debug, Drop, Error)]
pub enum ElabError {
    /// The first premise that is false: what it keeps, its place, its rule, and its number there
    /// from 1.
    #[error("a premise is false")]
    Refused(Detail, Span, Rule, u8),
    #[error("out of memory")]
    Memory,
}

impl From<AllocError> for ElabError {
    ghost from_gives = { λ _ e. e ≡ Memory };

    fn from(_error: AllocError) -> ElabError {
        ElabError::Memory
    }
}

impl<T: Drop> From<AllocFailed<T>> for ElabError {
    ghost from_gives = { λ _ e. e ≡ Memory };

    fn from(_error: AllocFailed<T>) -> ElabError {
        ElabError::Memory
    }
}

impl From<MemoryError> for ElabError {
    ghost from_gives = { λ _ e. e ≡ Memory };

    fn from(_error: MemoryError) -> ElabError {
        ElabError::Memory
    }
}

impl From<TermError> for ElabError {
    ghost from_gives = { λ _ e. e ≡ Memory };

    fn from(_error: TermError) -> ElabError {
        ElabError::Memory
    }
}

impl From<UsageError> for ElabError {
    ghost from_gives = { λ _ e. e ≡ Memory };

    fn from(_error: UsageError) -> ElabError {
        ElabError::Memory
    }
}
