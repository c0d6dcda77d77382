//! The run of a program: its code runs in the machine, and what its actions ask for is done to
//! the outside.
//!
//! `laws`, for every well-formed environment (and complete, where something runs): typed terms
//! mention nothing erased where it runs (`typed_terms_have_no_erased_use`); the bodies are such
//! as lowering asks for (`typed_environments_have_whole_bodies`); the machine over the code is
//! never stuck and answers within each bound what full evaluation gives (`typed_code_answers`).
//! End to end, within every bound and over every input, the run of a main's code has the
//! verdict, the count, the events, the tapes and the rest of the input of its full run
//! (`code_runs_as_full_runs`), so it closes each tape that it opened exactly once where it ends
//! or traps (`code_closes_tapes_once`). `lower_all` gives the code that these laws speak of,
//! which has an entry exactly for what is not 0 and has its body (`compiled_is_code`). The
//! ticks that the machine counts in a run are the steps of full evaluation in the full run
//! (`ticks_are_steps`).
//!
//! `run_program` runs the code of a main within a bound, over a source, a sink and tapes of any
//! kind (`runs`): the answer, the output and the tapes are those of the full run over what the
//! source tells, or, where it tells nothing, over some input. A fault is answered only where
//! that device's count rose in this call (`source`, `sink`, `tape`); with a fault, and with
//! want of memory, a front of the run's events was done, and of the next one at most a part, by
//! what failed (`specs/Front`).
#![tactic(auto)]

mod deed;
pub mod examples;
mod handles;
pub mod laws;
mod lines;
mod output;
pub mod program;
mod running;
mod stop;

pub use program::{RunEnd, RunHow, run_program};
