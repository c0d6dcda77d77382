//! What the definitions say of small families. The function does nothing: its contract is what
//! was computed.

ghost use Rattle.qtt_positive.specs.Rows.{FirstBadRows};

/// The first bad field of families that are not strictly positive, and none of those that are.
pub fn positivity_as_worked()
    ensures { FirstBadRows }
{}
