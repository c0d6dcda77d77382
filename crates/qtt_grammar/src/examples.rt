//! Worked examples of the definitions. Each function does nothing: its contract is what was
//! computed.

ghost use Rattle.qtt_grammar.specs.Examples.{ReadingRows};
ghost use Rattle.qtt_grammar.specs.ChainExamples.{ChainRows};

/// Trees of small texts, and their first bad tokens.
pub fn readings_as_worked()
    ensures { ReadingRows }
{}

/// The limit on indices and fields.
pub fn chains_as_worked()
    ensures { ChainRows }
{}
