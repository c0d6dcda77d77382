//! Laws of the machine. Each function does nothing: its contract is the law.

ghost use Rattle.qtt_code.specs.Laws.{HaltsAreUnique};

/// A run stops in one way.
pub fn halts_are_unique()
    ensures { HaltsAreUnique }
{}
