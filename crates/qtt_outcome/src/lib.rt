//! What a call of the program comes to, and what that promises.
//!
//! `specs/Outcome` is the whole call as one definition, a line a stage: what the words ask for, the
//! build of the named module, holes, main, the code's limits, and then what the command puts; its
//! status, the bytes that `out` and `err` gain, and the tapes, where memory is ample and no device
//! fails. `specs/Headline` is what a reader may rely on without that definition, and `laws` that
//! the definition has it. A request goes on to its command, is refused, or lacks a module
//! (`one_of_three`). It goes on only over modules that declare what is built by the rules, in a
//! well-formed environment (`accepted_is_derived`); it is refused only for a reason, which is told
//! (`refused_for_reason`), and a module is told to be lacking only where it is (`absent_is_told`),
//! and of generated modules none is (`generated_lack_none`).
//! What `run` shows is the full evaluation of main within the steps, in which each tape is used
//! while it is open, and closed exactly once where the run ends or traps (`runs_are_evaluations`).
//! The number of jobs changes nothing (`jobs_change_nothing`). Worked: `examples::calls_as_worked`.
//! The main of a build without a hole may be run (`mains_may_run`). And it is complete: over what
//! the modules declare by the rules a request goes on, and comes to what is put over that, unless
//! a question takes more than the budget (`specs/Completeness`, `derived_goes_on`).
//!
//! A theory: its lemmas may be cited.
#![tactic(auto)]

pub mod examples;
pub mod laws;
