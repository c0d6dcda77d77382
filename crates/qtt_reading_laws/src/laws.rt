//! Laws of reading. Each function does nothing: its contract is the law.

ghost use Rattle.qtt_reading_laws.specs.FirstFault.{ParsedIsTheGrammar};
ghost use Rattle.qtt_reading_laws.specs.Places.{FaultsStandInTheText};
ghost use Rattle.qtt_reading_laws.specs.Printed.{PrintedTextsAreParsed};

/// `parsed` gives the one tree that the grammar has of tokens, or their first fault.
pub fn parsed_is_the_grammar()
    ensures { ParsedIsTheGrammar }
{}

/// The printed text of a text's tree is lexed, laid out and parsed as the same tree but for
/// places, and prints alike.
pub fn printed_texts_are_parsed()
    ensures { PrintedTextsAreParsed }
{}

/// Each fault of lexing, layout, the grammar and names has a place in the text or directly behind
/// it, and so has each part of a text's tree.
pub fn faults_stand_in_the_text()
    ensures { FaultsStandInTheText }
{}
