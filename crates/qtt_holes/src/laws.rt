//! Laws of holes. The function does nothing: its contract is the law.

ghost use Rattle.qtt_holes.specs.Laws.{HolesAreDerived};

/// Without a bound, the walk at a leaf ends with a hole exactly where the rules derive it.
pub fn holes_are_derived()
    ensures { HolesAreDerived }
{}
