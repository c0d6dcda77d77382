//! What the definitions say of small problems. The function does nothing: its contract is what was
//! computed.

ghost use Rattle.qtt_unify.specs.Rows.{EquationRows};

/// Solutions, clashes, deletions and what is stuck, with questions at their exact counts.
pub fn equations_as_worked()
    ensures { EquationRows }
{}
