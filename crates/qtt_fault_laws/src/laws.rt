//! Laws of faults. The function does nothing: its contract is the law.

ghost use Rattle.qtt_fault_laws.specs.Kept.{FaultsAreKept};

/// A refusal keeps something of each fault of reading.
pub fn faults_are_kept()
    ensures { FaultsAreKept }
{}
