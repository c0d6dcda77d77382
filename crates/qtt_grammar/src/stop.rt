//! Why reading stops.

ghost use Rattle.std.specs.Prelude.{◌≡◌};
ghost use Rattle.qtt_grammar.specs.declared.stop.Stop.TheVariants.{Memory};

use crate::lexeme::Lexeme;
use qtt_base::{MemoryError, Quantity, Span};
use std::alloc::{AllocError, AllocFailed};

/// A quantity above its limit, with the count that is kept, at its place.
#[derive(Clone, Copy, Debug, PartialEq, Eq)]
pub struct Excess {
    pub quantity: Quantity,
    pub count: u64,
    pub place: Span,
}

/// Why a lexeme is bad.
#[derive(Clone, Copy, Debug, PartialEq, Eq)]
pub enum Reason {
    /// No text has it after those before it.
    Unexpected,
    /// It opens one nesting level too many.
    TooDeep,
}

/// Why reading stopped.
#[derive(Clone, Copy, Debug)]
pub enum Stop<'a> {
    Memory,
    /// The bad lexeme, and those behind it.
    Bad(Reason, &'a [Lexeme]),
    /// A limit is passed; the lexemes behind the one that settles it.
    Over(Excess, &'a [Lexeme]),
}

impl<'a> From<MemoryError> for Stop<'a> {
    ghost from_gives = { λ _ e. e ≡ Memory };

    fn from(_error: MemoryError) -> Stop<'a> {
        Stop::Memory
    }
}

impl<'a> From<AllocError> for Stop<'a> {
    ghost from_gives = { λ _ e. e ≡ Memory };

    fn from(_error: AllocError) -> Stop<'a> {
        Stop::Memory
    }
}

impl<'a, T: Drop> From<AllocFailed<T>> for Stop<'a> {
    ghost from_gives = { λ _ e. e ≡ Memory };

    fn from(_error: AllocFailed<T>) -> Stop<'a> {
        Stop::Memory
    }
}
