//! What the definition of holes gives for small texts. Each function does nothing: its contract is
//! what was computed.

ghost use Rattle.qtt_holes.specs.Rows.{HoleRows};
ghost use Rattle.qtt_holes.specs.HoleRuleRows.{HoleRuleRows};
ghost use Rattle.qtt_holes.specs.HoleTextRows.{HoleTextRows};

/// Goals, names in sight and uses left; and each premise on the way to a hole, false once.
pub fn holes_as_worked()
    ensures { HoleRows }
{}

/// The lines of holes.
pub fn hole_texts_as_worked()
    ensures { HoleTextRows }
{}

/// The way to a hole by the rules.
pub fn holes_derived_as_worked()
    ensures { HoleRuleRows }
{}
