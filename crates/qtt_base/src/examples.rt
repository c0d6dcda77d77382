//! Worked examples of the definitions. Each function does nothing: its contract is what was
//! computed.

ghost use Rattle.qtt_base.specs.Examples.{NameRows};

/// Parts of names, and limits.
pub fn names_as_worked()
    ensures { NameRows }
{}
