//! Laws of elaboration. Each function does nothing: its contract is the law.

ghost use Rattle.qtt_bidi.specs.Growth.{DerivationsGrow};
ghost use Rattle.qtt_bidi.specs.Laws.{ElaboratedIsDerived, ElaborationAsksForNoReading, FailuresAreUnderived, BudgetsAnswerSo, CheckedHasTheGivenType, DerivedHasNoHole, ErasedIsUnused};

/// Without a bound, elaboration ends with an answer exactly where the rules derive it.
pub fn elaborated_is_derived()
    ensures { ElaboratedIsDerived }
{}

/// Elaboration asks for no reading, so it ends alike over environments with the same definitions:
/// it makes no difference to it whether a family stands already.
pub fn elaboration_asks_for_no_reading()
    ensures { ElaborationAsksForNoReading }
{}

/// What fails has no derivation, whatever its type, core and uses would be.
pub fn failures_are_underived()
    ensures { FailuresAreUnderived }
{}

/// Within a budget for each question, what is given is derived, what fails does so without a
/// budget too, and what is spent is the first question that is.
pub fn budgets_answer_so()
    ensures { BudgetsAnswerSo }
{}

/// An expression that is checked against a type has that type.
pub fn checked_has_the_given_type()
    ensures { CheckedHasTheGivenType }
{}

/// A derivation stands in every larger environment in which the names of its expression stand for
/// the same items.
pub fn derivations_grow()
    ensures { DerivationsGrow }
{}

/// No hole occurs in what is derived: an expression with one is never accepted.
pub fn derived_has_no_hole()
    ensures { DerivedHasNoHole }
{}

/// What is declared 0 has no use in what is derived, in the run part and in the erased one.
pub fn erased_is_unused()
    ensures { ErasedIsUnused }
{}
