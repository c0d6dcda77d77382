//! Why a run stops on its way.

ghost use Rattle.std.specs.Prelude.{◌≡◌};
ghost use Rattle.qtt_run.specs.declared.stop.Stop.TheVariants.{Memory};
ghost use Rattle.qtt_run.specs.Stop.{of_line, of_sink, of_tape};

use qtt_base::MemoryError;
use qtt_edge::{LineError, SinkError, TapeError};
use std::alloc::AllocError;

/// What failed: a device of the outside, or there is no memory.
#[derive(Clone, Copy, Debug, PartialEq, Eq)]
pub(crate) enum Stop {
    Source,
    Sink,
    Tape,
    Memory,
}

impl From<AllocError> for Stop {
    ghost from_gives = { λ _ e. e ≡ Memory };

    fn from(_error: AllocError) -> Stop {
        Stop::Memory
    }
}

impl From<MemoryError> for Stop {
    ghost from_gives = { λ _ e. e ≡ Memory };

    fn from(_error: MemoryError) -> Stop {
        Stop::Memory
    }
}

impl From<LineError> for Stop {
    ghost from_gives = { λ error e. e ≡ of_line error };

    fn from(error: LineError) -> Stop {
        match error {
            LineError::Fault => Stop::Source,
            LineError::Memory => Stop::Memory,
        }
    }
}

impl From<SinkError> for Stop {
    ghost from_gives = { λ error e. e ≡ of_sink error };

    fn from(error: SinkError) -> Stop {
        match error {
            SinkError::Failed => Stop::Sink,
            SinkError::Memory => Stop::Memory,
        }
    }
}

impl From<TapeError> for Stop {
    ghost from_gives = { λ error e. e ≡ of_tape error };

    fn from(error: TapeError) -> Stop {
        match error {
            TapeError::Failed => Stop::Tape,
            TapeError::Memory => Stop::Memory,
        }
    }
}
