//! Quantities against their limits.

ghost use Rattle.std.specs.Prelude.{◌≡◌};
ghost use Rattle.qtt_grammar.specs.Limits.{counts, is_full, one_above};

use crate::class::Pass;
use crate::stop::Excess;
use qtt_base::{Limits, Quantity, Span};

impl Pass {
    pub fn counts(self) -> bool
        ensures { result ≡ counts self }
    {
        matches!(self, Pass::Counts)
    }

    /// Whether so many of them are there that one more is above the limit.
    pub fn is_full(self, quantity: Quantity, count: usize) -> bool
        ensures { result ≡ is_full self quantity count }
    {
        self.counts() && Limits::standard().of(quantity) <= count as u64
    }
}

/// One more than the limit.
pub fn one_above(quantity: Quantity, place: Span) -> Excess
    ensures { result ≡ one_above quantity place }
{
    Excess {
        quantity,
        count: Limits::standard().of(quantity) + 1,
        place,
    }
}
