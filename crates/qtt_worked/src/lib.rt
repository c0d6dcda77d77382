//! Programs worked from the bytes of their texts to what is told of them.
//!
//! The main of the first opens a tape, writes a line on it and closes it. By the rules its text
//! declares this main and nothing else, in a well-formed environment; the core of main has its
//! type, and goes on as its clause says; the run ends within ten contractions, and closes the tape
//! exactly once; and within nine it is held at the bound with the tape open (`handle_as_worked`).
//! The second has derivations that a budget of one contraction does not show
//! (`budget_as_worked`). The third is refused for a reason, and declares nothing
//! (`mismatch_as_worked`). The texts, the builds and the runs are computed; derivations, typing and
//! reasons come from the laws of builds and of outcomes.
#![tactic(auto)]

ghost use Rattle.qtt_worked.specs.Budget.{BudgetAsWorked};
ghost use Rattle.qtt_worked.specs.Handle.{HandleAsWorked};
ghost use Rattle.qtt_worked.specs.Mismatch.{MismatchAsWorked};

use qtt_build::laws::build_laws;
use qtt_outcome::laws::{accepted_is_derived, refused_for_reason};

/// The derivation of a program with a handle, its core, its run, and the handle's end.
pub fn handle_as_worked()
    ensures { HandleAsWorked }
{
    build_laws();
    accepted_is_derived();
}

/// A program that is accepted within two contractions, and refused within one for its budget.
pub fn budget_as_worked()
    ensures { BudgetAsWorked }
{
    accepted_is_derived();
}

/// A program that is refused for a premise that is false.
pub fn mismatch_as_worked()
    ensures { MismatchAsWorked }
{
    build_laws();
    refused_for_reason();
}
