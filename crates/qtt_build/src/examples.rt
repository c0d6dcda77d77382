//! What the definitions say of small builds. The function does nothing: its contract is what was
//! computed.

ghost use Rattle.qtt_build.specs.Rows.{BuildRows};

/// Ranks, imports and numbers of accepted modules, and the first refusal of a rank.
pub fn builds_as_worked()
    ensures { BuildRows }
{}
