//! Laws of the core judgement. Each function does nothing: its contract is the law.

ghost use Rattle.qtt_term.specs.Signature.{Env};
ghost use Rattle.qtt_term.specs.Contraction.{BodiesClosed};
ghost use Rattle.qtt_term.specs.Judgement.{Ctx, Part};
ghost use Rattle.qtt_core_check.specs.Laws.{EndingsAreSo, OneEnding, LargerBudgetsKeepEndings, InferIsSound, AcceptedIsTyped, OneTypeAndUse, FailuresAreSo, AcceptedIsInferred, AsksForNoReading};
ghost use Rattle.qtt_core_check.specs.Examples.{DeadPartsUseNothing, SortsAreBounded};
ghost use Rattle.qtt_term.specs.Environment.{ResultsCounted, WellFormed};

/// What a judgement answers within a budget is so without one: a type, a premise that fails, or
/// the first question that is spent.
pub fn endings_are_so()
    ensures { (E : Env) → EndingsAreSo E }
{}

/// A judgement has one ending.
pub fn one_ending()
    ensures { (E : Env) → BodiesClosed E → OneEnding E }
{}

/// A larger budget keeps every ending but a question that is spent.
pub fn larger_budgets_keep_endings()
    ensures { (E : Env) → LargerBudgetsKeepEndings E }
{}

/// The judgement asks for heads and comparisons alone, and for no reading of an index.
pub fn infer_asks_for_no_reading()
    ensures { (E : Env) → AsksForNoReading E }
{}

/// What is inferred for a term is so by the rules, dead terms included. Of the environment it
/// asks only that the result of each constructor has a term for each index, as in every
/// well-formed one.
pub fn infer_is_sound()
    ensures sound { (E : Env) → ResultsCounted E → InferIsSound E }
    ensures well_formed { (E : Env) → WellFormed E → ResultsCounted E }
{}

/// What is accepted is typed by the core judgement, and where no choice of uses is to be made,
/// what is typed is accepted.
pub fn accepted_is_typed()
    ensures { (E : Env) → AcceptedIsTyped E }
{}

/// Examples: a function whose body is dead, and a Case with a dead branch.
pub fn dead_parts_use_nothing()
    ensures { DeadPartsUseNothing }
{}

/// Examples: the Sorts at the bound.
pub fn sorts_are_bounded()
    ensures { (E : Env) (p : Part) (Γ : Ctx) → SortsAreBounded E p Γ }
{}

/// A term has one type up to conversion, and, where it is accepted or no Trap stands in it, one
/// use.
pub fn one_type_and_use()
    ensures { (E : Env) → BodiesClosed E → OneTypeAndUse E }
{}

/// What fails is not accepted, and what is accepted never fails where the judgement ends.
pub fn failures_are_so()
    ensures { (E : Env) → BodiesClosed E → ResultsCounted E → FailuresAreSo E }
{}

/// Without a bound the judgement accepts exactly what has a derivation: what it infers has one, and
/// whatever has one it infers, with that type up to conversion and that use.
pub fn accepted_is_inferred()
    ensures { (E : Env) → BodiesClosed E → ResultsCounted E → AcceptedIsInferred E }
{}
