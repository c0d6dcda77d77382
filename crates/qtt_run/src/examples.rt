//! Runs of code. Each function does nothing: its contract is what was computed.

ghost use Rattle.qtt_run.specs.Rows.{CodeRows};

/// The runs of two programs that open a tape, one of which ends, and one traps.
pub fn code_runs_as_worked()
    ensures { CodeRows }
{}
