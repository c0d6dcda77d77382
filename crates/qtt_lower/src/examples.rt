//! Lowered programs. Each function does nothing: its contract is what was computed.

ghost use Rattle.qtt_lower.specs.Rows.{LoweringRows};

/// The blocks and listings of small programs.
pub fn lowered_as_worked()
    ensures { LoweringRows }
{}
