//! Erasures of small programs. Each function does nothing: its contract is what was computed.

ghost use Rattle.qtt_erase.specs.Rows.{ErasureRows};

/// The erased bodies of small programs.
pub fn erased_as_worked()
    ensures { ErasureRows }
{}
