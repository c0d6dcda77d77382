//! Lowering of flat functions to blocks of instructions.
//!
//! `laws`: the code of a program takes the steps of its flat terms, a tick for a step, with the
//! same values and traps (`code_runs_in_step`, `runs_begin`); the program of an environment has
//! the blocks of its converted bodies (`programs_are_lowered`), so the machine over it answers
//! within each bound what their evaluation gives (`programs_run`); these two ask that outside
//! what is at 0 each function has its body and no tape stands in a body. Each jump goes to a
//! later place of its block (`jumps_go_forward`). `lower_all` gives exactly the program of an
//! environment, for every number of jobs, or the limit that it passes; `size_of`, `lower_one`,
//! `Compiled::{program, entry}` are exact. Worked: `examples::lowered_as_worked`.
//!
//! A theory: the lemmas behind its laws may be cited.
#![tactic(auto)]

pub mod bases;
pub mod definition;
pub mod examples;
mod grouped;
pub mod laws;
mod lowering;
mod position;
pub mod program;
mod width;

pub use bases::Bases;
pub use definition::{Size, lower_one, size_of};
pub use program::{Compiled, LowerError, lower_all};
