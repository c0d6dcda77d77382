//! Laws of generated modules. The function does nothing: its contract is the law.

ghost use Rattle.qtt_gen_laws.specs.Read.{GeneratedTextsAreRead};

/// Each generated text is read as the tree that it was printed from.
pub fn generated_texts_are_read()
    ensures { GeneratedTextsAreRead }
{}
