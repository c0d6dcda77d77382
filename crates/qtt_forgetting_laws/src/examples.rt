//! Worked examples of the definitions. The function does nothing: its contract is what was
//! computed.

ghost use Rattle.qtt_forgetting_laws.specs.Examples.{WrittenRows};

/// Small texts as they are written, and trees that no text has.
pub fn texts_as_written()
    ensures { WrittenRows }
{}
