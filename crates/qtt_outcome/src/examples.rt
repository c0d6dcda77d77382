//! What small calls come to. The function does nothing: its contract is what was computed.

ghost use Rattle.qtt_outcome.specs.Rows.{CallRows};

/// The stored run within two steps and one, its module checked and printed, and a hole.
pub fn calls_as_worked()
    ensures { CallRows }
{}
