//! Worked examples of the definitions. Each function does nothing: its contract is what was
//! computed.

ghost use Rattle.qtt_edge.specs.Examples.{OutsideRows};

/// Where files stand, and what sources, sinks, tapes and plans do.
pub fn outside_as_worked()
    ensures { OutsideRows }
{}
