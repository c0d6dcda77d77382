//! What the definitions say of small graphs. The function does nothing: its contract is what was
//! computed.

ghost use Rattle.qtt_graph.specs.Rows.{GraphRows};

/// Ranks and rings.
pub fn graphs_as_worked()
    ensures { GraphRows }
{}
