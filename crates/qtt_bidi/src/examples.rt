//! What elaboration gives for small texts. Each function does nothing: its contract is what was
//! computed.

ghost use Rattle.qtt_bidi.specs.Rows.{WorkedRows};
ghost use Rattle.qtt_bidi.specs.Refused.{RefusedRows, ChoiceRows};

/// The worked programs: cores, refusals with their places, and questions at their exact counts.
pub fn programs_as_worked()
    ensures { WorkedRows }
{}

/// Each premise of the rules, false once: what is kept, its place, its rule and its number.
pub fn premises_as_worked()
    ensures { RefusedRows }
{}

/// Points where a rule leaves a choice.
pub fn choices_as_worked()
    ensures { ChoiceRows }
{}
