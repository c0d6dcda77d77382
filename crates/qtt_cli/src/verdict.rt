//! How what was asked for went.

use qtt_machine::TrapKind;

/// How what was asked for went, where it was carried out.
#[derive(Clone, Copy, Debug, PartialEq, Eq)]
pub enum Verdict {
    /// It is done; a run came to its end.
    Ended,
    /// The tapes that were open then are closed.
    Trapped(TrapKind),
    /// The run goes on behind the bound of its steps.
    Running,
}
