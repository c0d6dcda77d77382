//! Worked examples of the definitions. Each function does nothing: its contract is what was
//! computed.

ghost use Rattle.qtt_names.specs.Examples.{NameRows};

/// What the names of small texts stand for.
pub fn names_as_worked()
    ensures { NameRows }
{}
