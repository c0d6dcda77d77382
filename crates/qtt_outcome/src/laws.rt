//! The laws of the outcome of a call. No function computes anything: the contract of each is its
//! law.

ghost use Rattle.qtt_outcome.specs.Completeness.{DerivedGoesOn};
ghost use Rattle.qtt_outcome.specs.Headline.{AbsentIsTold, AcceptedIsDerived, GeneratedLackNone, JobsChangeNothing, MainsMayRun, OneOfThree, RefusedForReason, RunsAreEvaluations};

use qtt_build::laws::build_laws;
use qtt_gen_load::generated_modules_are_there;

/// What a request comes to goes on to its command, is refused, or lacks a module.
pub fn one_of_three()
    ensures { OneOfThree }
{
    build_laws();
}

/// What is accepted has a derivation.
pub fn accepted_is_derived()
    ensures { AcceptedIsDerived }
{
    build_laws();
}

/// What has derivations goes on, unless a question takes more than the budget.
pub fn derived_goes_on()
    ensures { DerivedGoesOn }
{
    build_laws();
}

/// What is refused is so for a reason, which is told, and puts nothing out.
pub fn refused_for_reason()
    ensures { RefusedForReason }
{
    build_laws();
}

/// Where a module is told to be lacking it is so, and nothing is put out.
pub fn absent_is_told()
    ensures { AbsentIsTold }
{
    build_laws();
}

/// A request about generated modules lacks none.
pub fn generated_lack_none()
    ensures { GeneratedLackNone }
{
    build_laws();
    generated_modules_are_there();
}

/// What `run` and `gen` run is the full evaluation of main.
pub fn runs_are_evaluations()
    ensures { RunsAreEvaluations }
{
    build_laws();
}

/// The main of a build without a hole may be run: its environment is well formed and complete.
pub fn mains_may_run()
    ensures { MainsMayRun }
{
    build_laws();
}

/// The number of jobs changes nothing.
pub fn jobs_change_nothing()
    ensures { JobsChangeNothing }
{}
