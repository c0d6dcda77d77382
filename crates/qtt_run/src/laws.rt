//! Laws of typed programs that run as their code. Each function does nothing: its contract is
//! the law.

ghost use Rattle.std.specs.Prelude.{List, [], ℕ};
ghost use Rattle.qtt_base.specs.declared.place.GlobalId.{GlobalId};
ghost use Rattle.qtt_usage.specs.Uses.{Use};
ghost use Rattle.qtt_term.specs.Term.{Term};
ghost use Rattle.qtt_term.specs.declared.globals.Globals.{Globals};
ghost use Rattle.qtt_term.specs.Signature.{Env};
ghost use Rattle.qtt_term.specs.Judgement.{Part, Typed};
ghost use Rattle.qtt_term.specs.Environment.{WellFormed, Complete, IsMain};
ghost use Rattle.qtt_erase.specs.ErasedUse.{NoErasedUse, Erasable};
ghost use Rattle.qtt_lower.specs.Source.{HasWholeBodies};
ghost use Rattle.qtt_lower.specs.declared.program.Compiled.{Compiled};
ghost use Rattle.qtt_lower.specs.Whole.{IsProgramOf};
ghost use Rattle.qtt_run.specs.Compiled.{IsCodeOf};
ghost use Rattle.qtt_run.specs.Program.{IsCodeOfMain};
ghost use Rattle.qtt_term.specs.Globals.{env};
ghost use Rattle.qtt_run.specs.Code.{Lists, code, first_block};
ghost use Rattle.qtt_run.specs.CodeRun.{Seen, Runs, start};
ghost use Rattle.qtt_run.specs.Ticks.{TicksAreSteps};
ghost use Rattle.qtt_run.specs.Laws.{TypedCodeAnswers, CodeKeepsTypes, RunsAddEvents, RunsAreOne, CodeRunsAsFullRuns, ClosesTapes};

/// What a term of the run part mentions outside parts at 0 is there at run time; and so it is in
/// each body that is not 0.
pub fn typed_terms_have_no_erased_use()
    ensures terms { (E : Env) (t A : Term) (u : Use) → Typed E Part.run [] t A u →
        NoErasedUse E [] t }
    ensures bodies { (E : Env) → WellFormed E → Erasable E }
{}

/// The bodies of a well-formed environment are such as lowering asks for.
pub fn typed_environments_have_whole_bodies()
    ensures { (E : Env) → WellFormed E → HasWholeBodies E }
{}

/// What lowering a whole environment gives is its code, in the sense of the laws below; and it
/// is the code of each main, as a run asks for.
pub fn compiled_is_code()
    ensures code { (g : Globals) (c : Compiled) → IsProgramOf g c → IsCodeOf g c }
    ensures main { (g : Globals) (c : Compiled) (main : GlobalId) → IsProgramOf g c →
        WellFormed (env g) → Complete (env g) → IsMain (env g) main →
        IsCodeOfMain c main (env g) }
{}

/// The machine over the code of a typed environment is never stuck, and answers what full
/// evaluation gives, a tick for a step.
pub fn typed_code_answers()
    ensures { (E : Env) → WellFormed E → Complete E →
        (ds : List GlobalId) → Lists E ds → TypedCodeAnswers E ds }
{}

/// A run of code stays typed: the machine answers within each bound, what it gives is an action,
/// and this is performed.
pub fn code_keeps_types()
    ensures { (E : Env) → WellFormed E → Complete E →
        (ds : List GlobalId) → Lists E ds → CodeKeepsTypes E ds }
{}

/// The events of a run so far are a front of those of the whole run.
pub fn runs_of_code_add_events()
    ensures { RunsAddEvents }
{}

/// A run of code has one end.
pub fn runs_of_code_are_one()
    ensures { RunsAreOne }
{}

/// End to end: the code of a main puts the lines, uses the tapes, reads the input and ends,
/// traps or goes on as the full run does, after as many ticks and actions as that makes
/// contractions.
pub fn code_runs_as_full_runs()
    ensures { (E : Env) → WellFormed E → Complete E → (ds : List GlobalId) → Lists E ds →
        (main : GlobalId) → IsMain E main → CodeRunsAsFullRuns E ds main }
{}

/// Of these contractions as many are ticks of the machine, which it counts as used, as are steps
/// of full evaluation.
pub fn ticks_are_steps()
    ensures { (E : Env) → WellFormed E → Complete E → (ds : List GlobalId) → Lists E ds →
        (main : GlobalId) → IsMain E main →
        TicksAreSteps E ds main }
{}

/// So the code of a main is never stuck, and closes each tape that it opened exactly once where
/// it ends or traps.
pub fn code_closes_tapes_once()
    ensures { (E : Env) → WellFormed E → Complete E → (ds : List GlobalId) → Lists E ds →
        (main : GlobalId) → IsMain E main →
        (bound : ℕ) (input : List ℕ) (r : Seen) →
        Runs (code E ds) bound 0 (start (first_block E ds main) input) r → ClosesTapes r }
{}
