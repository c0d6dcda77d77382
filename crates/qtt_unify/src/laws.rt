//! Laws of index equations. Each function does nothing: its contract is the law.

ghost use Rattle.qtt_term.specs.Signature.{Env};
ghost use Rattle.qtt_term.specs.Contraction.{BodiesClosed};
ghost use Rattle.qtt_unify.specs.Laws.{EquationsAreTheRelation, OneVerdict, OneOfFour};

/// Without a bound, the questions of a problem, and those of a constructor, end with an answer
/// exactly where the relation of solution, injectivity and conflict has it. They never fail.
pub fn equations_are_the_relation<F, P>()
    ensures { EquationsAreTheRelation F P }
{}

/// Equations are solved, or one clashes, or one is stuck, exactly as the verdict says.
pub fn one_verdict()
    ensures { OneVerdict }
{}

/// A problem is solved, clashes, is a deletion or is stuck, and one of these alone.
pub fn one_of_four()
    ensures { (E : Env) → BodiesClosed E → OneOfFour E }
{}
