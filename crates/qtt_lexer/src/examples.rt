//! Worked examples of the definitions. Each function does nothing: its contract is what was
//! computed.

ghost use Rattle.qtt_lexer.specs.Examples.{TokenRows};

/// Tokens of small texts, and their faults.
pub fn tokens_as_worked()
    ensures { TokenRows }
{}
