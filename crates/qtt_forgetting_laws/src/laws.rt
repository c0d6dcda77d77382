//! Laws of forgetting. Each function does nothing: its contract is the law.

ghost use Rattle.qtt_forgetting_laws.specs.Laws.{ReadTextsAreForgotten, ReadTextsAreWritten, SignaturesHaveTheirBinders};

use qtt_implicit::laws::filled_is_forgotten;
use qtt_reading_laws::parsed_is_the_grammar;

/// A text that is read is as texts are written, and so is the text with the targets of its names.
pub fn read_texts_are_written()
    ensures { ReadTextsAreWritten }
{
    parsed_is_the_grammar();
}

/// Each signature that is given to importers has the binders that it counts.
pub fn signatures_have_their_binders()
    ensures { SignaturesHaveTheirBinders }
{}

/// Forgetting what was filled into a text that was read gives the text with targets back.
pub fn read_texts_are_forgotten()
    ensures { ReadTextsAreForgotten }
{
    read_texts_are_written();
    signatures_have_their_binders();
    filled_is_forgotten();
}
