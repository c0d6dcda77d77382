//! Why the names of a text cannot be resolved.

ghost use Rattle.std.specs.Prelude.{◌≡◌};
ghost use Rattle.qtt_names.specs.Answer.{mistake};
ghost use Rattle.qtt_names.specs.View.{Says};
ghost use Rattle.qtt_names.specs.declared.errors.NamesError.TheVariants.{Memory};

use qtt_base::{Fault, MemoryError, Name, Span};
use std::alloc::{AllocError, AllocFailed, Global};
use thiserror::Error;

/// The first fault of a text's names, or want of memory.
#[derive(Debug, Drop, Error)]
pub enum NamesError {
    #[error("the text has a fault of kind {}", .0.kind)]
    Fault(Fault),
    #[error("out of memory")]
    Memory,
}

impl From<MemoryError> for NamesError {
    ghost from_gives = { λ _ e. e ≡ Memory };

    fn from(_error: MemoryError) -> NamesError {
        NamesError::Memory
    }
}

impl From<AllocError> for NamesError {
    ghost from_gives = { λ _ e. e ≡ Memory };

    fn from(_error: AllocError) -> NamesError {
        NamesError::Memory
    }
}

impl<T: Drop> From<AllocFailed<T>> for NamesError {
    ghost from_gives = { λ _ e. e ≡ Memory };

    fn from(_error: AllocFailed<T>) -> NamesError {
        NamesError::Memory
    }
}

/// The fault of this kind for a name at its place, or want of memory.
fn fault(alloc: Global, kind: u8, name: &Name, span: Span) -> NamesError
    ensures { Says result (mistake kind name.now span) }
{
    match name.as_str().as_bytes().to_vec(alloc) {
        Ok(word) => NamesError::Fault(Fault {
            kind,
            span,
            word,
            count: 0,
        }),
        Err(_) => NamesError::Memory,
    }
}

impl NamesError {
    /// No such thing is in scope.
    pub(crate) fn unbound(alloc: Global, name: &Name, span: Span) -> NamesError
        ensures { Says result (mistake 10 name.now span) }
    {
        fault(alloc, 10, name, span)
    }

    /// Several things of the name are in scope.
    pub(crate) fn ambiguous(alloc: Global, name: &Name, span: Span) -> NamesError
        ensures { Says result (mistake 11 name.now span) }
    {
        fault(alloc, 11, name, span)
    }

    /// The second thing of its name.
    pub(crate) fn duplicate(alloc: Global, name: &Name, span: Span) -> NamesError
        ensures { Says result (mistake 12 name.now span) }
    {
        fault(alloc, 12, name, span)
    }
}
