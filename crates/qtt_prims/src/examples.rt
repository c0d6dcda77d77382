//! Worked examples of the definitions. Each function does nothing: its contract is what was
//! computed.

ghost use Rattle.qtt_prims.specs.Examples.{PrimitiveRows};

/// What primitives answer, lines of inputs, and tapes.
pub fn primitives_as_worked()
    ensures { PrimitiveRows }
{}
