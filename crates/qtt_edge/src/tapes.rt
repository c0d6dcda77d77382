//! Tapes: files that a program opens, writes line by line and closes.

ghost use Rattle.std.specs.Prelude.{◌≡◌, ℕ, List, Option, IfOk, OnOk, OnErr, IsErrOf};
ghost use Rattle.std.specs.Option.{ForSome};
ghost use Rattle.qtt_prims.specs.Tapes.{Taped};
ghost use Rattle.qtt_edge.specs.Counts.{Counts};
ghost use Rattle.qtt_edge.specs.Tapes.{HasRoom, IsNextNumber, IsOpenAt, Opens, AddsLine, Closes, KeepsOthers};

use qtt_base::MemoryError;
use std::alloc::{AllocError, AllocFailed};
use thiserror::Error;

#[derive(Clone, Copy, Debug, PartialEq, Eq, Error)]
pub enum TapeError {
    #[error("a tape failed")]
    Failed,
    #[error("out of memory")]
    Memory,
}

impl From<AllocError> for TapeError {
    ghost use Rattle.qtt_edge.specs.declared.tapes.TapeError.TheVariants.{Memory};

    ghost from_gives = { λ _ e. e ≡ Memory };

    fn from(_error: AllocError) -> TapeError {
        TapeError::Memory
    }
}

impl<T: Drop> From<AllocFailed<T>> for TapeError {
    ghost use Rattle.qtt_edge.specs.declared.tapes.TapeError.TheVariants.{Memory};

    ghost from_gives = { λ _ e. e ≡ Memory };

    fn from(_error: AllocFailed<T>) -> TapeError {
        TapeError::Memory
    }
}

impl From<MemoryError> for TapeError {
    ghost use Rattle.qtt_edge.specs.declared.tapes.TapeError.TheVariants.{Memory};

    ghost from_gives = { λ _ e. e ≡ Memory };

    fn from(_error: MemoryError) -> TapeError {
        TapeError::Memory
    }
}

/// Numbered tapes. Which there are is told by some implementations alone.
pub trait Tapes {
    ghost tapes: { Self → Option (List Taped) };

    ghost faults: { Self → ℕ };

    /// Opens a tape, and answers its number.
    fn create(&mut self, name: &str) -> Result<u32, TapeError>
        requires { HasRoom (tapes self.old) }
        ensures number { IfOk result (IsNextNumber (tapes self.old)) }
        ensures ok { OnOk result (Opens (tapes self.old) (tapes self.new) name.now) }
        ensures err { OnErr result (tapes self.new ≡ tapes self.old) }
        ensures failed { Counts (faults self.old) (faults self.new)
            (IsErrOf result TapeError.Failed) };

    /// Adds a line to an open tape.
    fn append(&mut self, number: u32, text: &str) -> Result<(), TapeError>
        requires { ForSome (tapes self.old) (IsOpenAt number) }
        ensures ok { OnOk result (AddsLine (tapes self.old) (tapes self.new) number text.now) }
        ensures err { OnErr result (KeepsOthers number (tapes self.old) (tapes self.new)) }
        ensures failed { Counts (faults self.old) (faults self.new)
            (IsErrOf result TapeError.Failed) };

    /// Closes an open tape.
    fn close(&mut self, number: u32) -> Result<(), TapeError>
        requires { ForSome (tapes self.old) (IsOpenAt number) }
        ensures ok { OnOk result (Closes (tapes self.old) (tapes self.new) number) }
        ensures err { OnErr result (KeepsOthers number (tapes self.old) (tapes self.new)) }
        ensures failed { Counts (faults self.old) (faults self.new)
            (IsErrOf result TapeError.Failed) };
}
