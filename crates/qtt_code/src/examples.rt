//! Runs of small programs. Each function does nothing: its contract is what was computed.

ghost use Rattle.qtt_code.specs.Rows.{MachineRows};

/// The ends, the traps and the counts of small runs.
pub fn runs_as_worked()
    ensures { MachineRows }
{}
