//! Worked examples of the definitions. Each function does nothing: its contract is what was
//! computed.

ghost use Rattle.qtt_syntax.specs.PrintingExamples.{PrintingRows};

/// Canonical texts of small trees.
pub fn printed_as_worked()
    ensures { PrintingRows }
{}
