//! Laws of tokens and faults. Each function does nothing: its contract is the law.

ghost use Rattle.qtt_lexer_laws.specs.Examples.{FaultRows};
ghost use Rattle.qtt_lexer_laws.specs.Laws.{TextsAreCutOrFaulty, LexingTellsThem};

/// Bytes have one list of tokens or one first fault, and never both.
pub fn texts_are_cut_or_faulty()
    ensures { TextsAreCutOrFaulty }
{}

/// Lexing answers the tokens or the fault.
pub fn lexing_tells_them()
    ensures { LexingTellsThem }
{}

/// Tokens of a small text, and a fault of each kind.
pub fn faults_as_worked()
    ensures { FaultRows }
{}
