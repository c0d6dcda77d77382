//! Laws of ranks and rings. Each function does nothing: its contract is the law.

ghost use Rattle.qtt_graph.specs.Laws.{RingsAreTold, RanksAreAbove};

/// A ring is told exactly where imports lead from a module back to itself.
pub fn rings_are_told()
    ensures { RingsAreTold }
{}

/// Without a ring each module has a rank, one above the greatest of those that it imports.
pub fn ranks_are_above()
    ensures { RanksAreAbove }
{}
