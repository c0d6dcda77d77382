//! Messages of each kind, and faults. Each function does nothing: its contract is what was
//! computed.

ghost use Rattle.qtt_diag.specs.Fault.{FaultRows};
ghost use Rattle.qtt_diag.specs.Rows.{MessageRows};

/// A message of each kind.
pub fn messages_as_worked()
    ensures { MessageRows }
{}

/// What is kept of faults of reading.
pub fn faults_as_worked()
    ensures { FaultRows }
{}
