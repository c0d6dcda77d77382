//! Worked examples of the definitions. Each function does nothing: its contract is what was
//! computed.

ghost use Rattle.qtt_layout.specs.Examples.{LayoutRows};

/// Blocks of small texts.
pub fn blocks_as_worked()
    ensures { LayoutRows }
{}
