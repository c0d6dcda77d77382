//! Laws of the objects in memory.

ghost use Rattle.qtt_edge.specs.Laws.{CallsFailAsListed, PutsFailAsListed};

/// Who knows the list of a plan and the number of the next call knows which of all later calls
/// fail.
pub fn calls_fail_as_listed()
    ensures { CallsFailAsListed }
{}

pub fn puts_fail_as_listed()
    ensures { PutsFailAsListed }
{}
