//! What is generated for small numbers. Each function does nothing: its contract is what was
//! computed.

ghost use Rattle.qtt_gen.specs.Rows.{GeneratedRows};

/// Whole texts, and values.
pub fn texts_as_worked()
    ensures { GeneratedRows }
{}
