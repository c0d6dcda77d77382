//! Why filling stops, and how much may still be put in.

use qtt_base::{MemoryError, Name, Span};

/// Why filling stops.
#[derive(Clone, Copy)]
pub enum Stop<'a> {
    /// The binder that is not filled, at the used name.
    Unsolved { name: &'a Name, span: Span },
    /// More braces than brace binders: how many binders, and how many braces, at the used name.
    Braces { most: u32, found: u32, span: Span },
    /// More nodes than a filled item may have.
    TooLarge,
    Memory,
}

impl From<MemoryError> for Stop<'_> {
    ghost use Rattle.std.specs.Prelude.{◌≡◌};
    ghost use Rattle.qtt_implicit.specs.declared.filling.stop.Stop.TheVariants.{Memory};

    ghost from_gives = { λ _ e. e ≡ Memory };

    fn from(_error: MemoryError) -> Self {
        Stop::Memory
    }
}
