//! Where the bytes of the output go.

ghost use Rattle.std.specs.Prelude.{◌≡◌, ℕ, List, Option, OnOk, OnErr, IsErrOf};
ghost use Rattle.qtt_edge.specs.Counts.{Counts};
ghost use Rattle.qtt_edge.specs.Sink.{Adds, AddsFront};

use qtt_base::MemoryError;
use std::alloc::AllocError;
use thiserror::Error;

#[derive(Clone, Copy, Debug, PartialEq, Eq, Error)]
pub enum SinkError {
    #[error("the sink failed")]
    Failed,
    #[error("out of memory")]
    Memory,
}

impl From<AllocError> for SinkError {
    ghost use Rattle.qtt_edge.specs.declared.sink.SinkError.TheVariants.{Memory};

    ghost from_gives = { λ _ e. e ≡ Memory };

    fn from(_error: AllocError) -> SinkError {
        SinkError::Memory
    }
}

impl From<MemoryError> for SinkError {
    ghost use Rattle.qtt_edge.specs.declared.sink.SinkError.TheVariants.{Memory};

    ghost from_gives = { λ _ e. e ≡ Memory };

    fn from(_error: MemoryError) -> SinkError {
        SinkError::Memory
    }
}

/// Takes bytes. What it holds is told by some sinks alone.
pub trait Sink {
    ghost content: { Self → Option (List ℕ) };

    ghost faults: { Self → ℕ };

    /// Takes all the bytes. Where it answers an error it has taken a front of them.
    fn put(&mut self, bytes: &[u8]) -> Result<(), SinkError>
        ensures ok { OnOk result (Adds (content self.old) (content self.new) bytes.now) }
        ensures err { OnErr result (AddsFront (content self.old) (content self.new) bytes.now) }
        ensures failed { Counts (faults self.old) (faults self.new)
            (IsErrOf result SinkError.Failed) };
}
