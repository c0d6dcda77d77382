//! Where the bytes of the input come from.

ghost use Rattle.std.specs.Prelude.{◌≡◌, ◌+◌, ◌<◌, ◌≤◌, ℕ, List, Option, length, IfOk, OnErr, IsErrOf, is_some};
ghost use Rattle.qtt_edge.specs.Counts.{Counts};
ghost use Rattle.qtt_edge.specs.Source.{Gives, IsAtEnd};

use thiserror::Error;

#[derive(Clone, Copy, Debug, PartialEq, Eq, Error)]
pub enum SourceError {
    #[error("the source failed")]
    Failed,
}

/// Gives bytes. Which are left is told by some sources alone.
pub trait Source {
    ghost content: { Self → Option (List ℕ) };

    ghost faults: { Self → ℕ };

    ghost ends: { Self → ℕ };

    /// How many pulls were made, where it counts them.
    ghost pulls: { Self → ℕ };

    /// Puts the next bytes in front of `buf`, and says how many. For a `buf` that is not empty 0
    /// is the end.
    fn pull(&mut self, buf: &mut [u8]) -> Result<usize, SourceError>
        ensures within { IfOk result (λ count. count ≤ length buf.old) }
        ensures gives { IfOk result
            (λ count. Gives (content self.old) (content self.new) buf.new count) }
        ensures end { 0 < length buf.old → result ≡ Ok 0 → IsAtEnd (content self.old) }
        ensures told { OnErr result (is_some (content self.new) ≡ is_some (content self.old)) }
        ensures pulled { pulls self.new ≤ pulls self.old + 1 }
        ensures ended { Counts (ends self.old) (ends self.new)
            ((0 < length buf.old) × (result ≡ Ok 0)) }
        ensures failed { Counts (faults self.old) (faults self.new)
            (IsErrOf result SourceError.Failed) };
}
