//! Laws of typed terms and runs. Each function does nothing: its contract is the law.

ghost use Rattle.std.specs.Prelude.{length, ℕ, List};
ghost use Rattle.qtt_base.specs.declared.place.GlobalId.{GlobalId};
ghost use Rattle.qtt_usage.specs.Uses.{Use};
ghost use Rattle.qtt_term.specs.Term.{Term};
ghost use Rattle.qtt_term.specs.Substitution.{Below};
ghost use Rattle.qtt_term.specs.Signature.{Env};
ghost use Rattle.qtt_term.specs.Contraction.{BodiesClosed};
ghost use Rattle.qtt_term.specs.Judgement.{Part, Ctx, Typed};
ghost use Rattle.qtt_term.specs.Environment.{WellFormed, Complete, IsMain};
ghost use Rattle.qtt_term.specs.Programs.{handles, trapping};
ghost use Rattle.qtt_preserve.specs.Inversion.{Inversion};
ghost use Rattle.qtt_preserve.specs.Examples.{HandlesAreLinear, IsProgram};
ghost use Rattle.qtt_preserve.specs.Laws.{UsesAreExact, SubstitutionWithUses, StepKeepsTypeAndUse, StepsAreNeverStuck, RunKeepsTapes, NeverStuck, TapesClosedOnce, DerivationsGrow, DeadTermsUseAnything};
ghost use Rattle.qtt_preserve.specs.Grows.{Grows};

/// A term has a type with at most a use exactly where it has it with an exact use within that
/// one.
pub fn uses_are_exact()
    ensures { (E : Env) (p : Part) (Γ : Ctx) (t A : Term) (u : Use) → UsesAreExact E p Γ t A u }
{}

/// A derivation ends, but for conversion, by the rule of its term's form.
pub fn inversion()
    ensures { (E : Env) (p : Part) (Γ : Ctx) → Inversion E p Γ }
{}

/// The free variables of a typed term are those of its context; in a well-formed environment no
/// variable is free in a body, as the laws of conversion ask.
pub fn typed_terms_are_in_scope()
    ensures scope { (E : Env) (p : Part) (Γ : Ctx) (t A : Term) (u : Use) → Typed E p Γ t A u →
        Below (length Γ) t }
    ensures bodies { (E : Env) → WellFormed E → BodiesClosed E }
{}

/// Substitution keeps types, and carries uses (Atkey 2018).
pub fn substitution_with_uses()
    ensures { (E : Env) → BodiesClosed E → SubstitutionWithUses E }
{}

/// Preservation: a full step keeps the type up to conversion, and uses no more.
pub fn step_keeps_type_and_use()
    ensures { (E : Env) → WellFormed E → StepKeepsTypeAndUse E }
{}

/// Progress of full steps.
pub fn steps_are_never_stuck()
    ensures { (E : Env) → WellFormed E → Complete E → StepsAreNeverStuck E }
{}

/// Each contraction of a run keeps the types, and each open tape used exactly once.
pub fn run_keeps_tapes()
    ensures { (E : Env) → WellFormed E → RunKeepsTapes E }
{}

/// Progress of full runs.
pub fn never_stuck()
    ensures { (E : Env) → WellFormed E → Complete E → NeverStuck E }
{}

/// Each tape that a run opens is written and closed only while it is open, and is closed exactly
/// once.
pub fn tapes_closed_once()
    ensures { (E : Env) → WellFormed E → Complete E → (main : GlobalId) → IsMain E main →
        (n : ℕ) (input : List ℕ) → TapesClosedOnce E main n input }
{}

/// Adding to an environment keeps derivations, and what is well formed.
pub fn derivations_grow()
    ensures { (D E : Env) → Grows D E → DerivationsGrow D E }
{}

/// A dead term, which a run never leaves, may use anything: so its uses need not be counted.
pub fn dead_terms_use_anything()
    ensures { (E : Env) → DeadTermsUseAnything E }
{}

/// What closes an open tape uses it exactly once; a program that drops its handle has no type,
/// and neither has one that closes it twice.
pub fn handles_are_linear()
    ensures { (E : Env) → HandlesAreLinear E }
{}

/// The laws speak of something: a program that opens, writes and closes a tape, and one that
/// traps while its tape is open, are well formed and complete.
pub fn examples_are_programs()
    ensures handles { IsProgram handles }
    ensures trapping { IsProgram trapping }
{}
