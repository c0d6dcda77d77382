//! What the core judgement refuses with.

ghost use Rattle.std.specs.Prelude.{◌≡◌};
ghost use Rattle.qtt_core_check.specs.declared.refusal.CoreRefusal.TheVariants.{Memory};

use qtt_base::MemoryError;
use qtt_term::{Question, Rule, TermError};
use qtt_usage::usage::UsageError;
use std::alloc::{AllocError, AllocFailed};
use thiserror::Error;

/// Why a term has no type, or why none is found.
#[derive(Debug, Drop, Error)]
pub enum CoreRefusal {
    /// The first premise that is false: its rule, and its number there from 1.
    #[error("a premise is false")]
    Fails(Rule, u8),
    /// The first question whose answer was Spent.
    #[error("a question is not answered within its contractions")]
    Spent(Question),
    #[error("out of memory")]
    Memory,
}

impl From<AllocError> for CoreRefusal {
    ghost from_gives = { λ _ e. e ≡ Memory };

    fn from(_error: AllocError) -> CoreRefusal {
        CoreRefusal::Memory
    }
}

impl<T: Drop> From<AllocFailed<T>> for CoreRefusal {
    ghost from_gives = { λ _ e. e ≡ Memory };

    fn from(_error: AllocFailed<T>) -> CoreRefusal {
        CoreRefusal::Memory
    }
}

impl From<MemoryError> for CoreRefusal {
    ghost from_gives = { λ _ e. e ≡ Memory };

    fn from(_error: MemoryError) -> CoreRefusal {
        CoreRefusal::Memory
    }
}

impl From<TermError> for CoreRefusal {
    ghost from_gives = { λ _ e. e ≡ Memory };

    fn from(_error: TermError) -> CoreRefusal {
        CoreRefusal::Memory
    }
}

impl From<UsageError> for CoreRefusal {
    ghost from_gives = { λ _ e. e ≡ Memory };

    fn from(_error: UsageError) -> CoreRefusal {
        CoreRefusal::Memory
    }
}
