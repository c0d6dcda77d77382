//! What the definitions say of small programs, of the module Prim and of its families. Each
//! function does nothing: its contract is what was computed or proved.

ghost use Rattle.qtt_term.specs.Rows.{RunRows, QuestionRows, JudgementRows};
ghost use Rattle.qtt_term.specs.VectorRows.{VectorRows};
ghost use Rattle.qtt_term.specs.ReadingRows.{ReadingRows};
ghost use Rattle.qtt_term.specs.PositivityRows.{PositivityRows};
ghost use Rattle.qtt_term.specs.EchoRows.{EchoRows};
ghost use Rattle.qtt_term.specs.Environment.{WellFormed, Complete};
ghost use Rattle.qtt_term.specs.PrimEnvironment.{prim_env};

/// Runs of small programs, with their verdicts, counts, events and tapes.
pub fn runs_as_worked()
    ensures { RunRows }
{}

/// Heads and questions at their exact counts.
pub fn questions_as_worked()
    ensures { QuestionRows }
{}

/// Readings of indices at their exact counts, and plain families.
pub fn readings_as_worked()
    ensures { ReadingRows }
{}

/// Types, uses, false premises and spent questions of small terms.
pub fn judgements_as_worked()
    ensures { JudgementRows }
{}

/// A family with an index: a function over vectors, and a match without a clause for what cannot
/// be, are judged; a program of vectors runs.
pub fn vectors_as_worked()
    ensures { VectorRows }
{}

/// Families that are strictly positive, and families that are not.
pub fn positivity_as_worked()
    ensures { PositivityRows }
{}

/// Lines that are echoed, up to the longest, and one that is too long.
pub fn echoes_as_worked()
    ensures { EchoRows }
{}

/// The module Prim is well formed, and no definition of it lacks a body.
pub fn prim_is_well_formed()
    ensures formed { WellFormed prim_env }
    ensures complete { Complete prim_env }
{}
