//! Laws of messages. Each function does nothing: its contract is the law.

ghost use Rattle.qtt_diag.specs.Fault.{FaultsKeepTheirKinds};
ghost use Rattle.qtt_diag.specs.Laws.{KindsAgree, PatternsAsPrinted};

/// The number that is told is that of the refusal's kind.
pub fn kinds_agree()
    ensures { KindsAgree }
{}

/// What is kept of a fault is of the fault's kind.
pub fn faults_keep_their_kinds()
    ensures { FaultsKeepTheirKinds }
{}

/// Patterns are told as the printer of module texts writes them.
pub fn patterns_as_printed()
    ensures { PatternsAsPrinted }
{}
