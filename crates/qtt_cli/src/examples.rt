//! Worked calls, as they are seen from outside. The functions do nothing: their contracts are what
//! was computed.

ghost use Rattle.qtt_cli.specs.Rows.{AnswerRows, BreakRows, LineRows};

use qtt_outcome::laws::{
    absent_is_told, accepted_is_derived, derived_goes_on, generated_lack_none, jobs_change_nothing,
    refused_for_reason, runs_are_evaluations,
};

/// The line and the status of each way in which a call goes.
pub fn lines_as_worked()
    ensures { LineRows }
{}

/// What is done where a device fails: a front of a text or of a run's events, and never what
/// stands behind bytes that are lacking.
pub fn breaks_as_worked()
    ensures { BreakRows }
{}

/// A call without words: it is answered with the usage line, and with nothing else.
pub fn answers_as_worked()
    ensures { AnswerRows }
{
    accepted_is_derived();
    refused_for_reason();
    absent_is_told();
    runs_are_evaluations();
    derived_goes_on();
    generated_lack_none();
    jobs_change_nothing();
}
