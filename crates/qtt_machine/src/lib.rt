//! The machine: it runs the code of a program, so many ticks at a time.
//!
//! `Machine::start` stands at the beginning of a block's evaluation. `advance` makes at most so
//! many ticks of the defined steps, exactly: Done or Trap where the run ends or traps within
//! them, Spent exactly where another tick would follow. `used` counts the ticks since the
//! start. `call` makes a function at an argument the next evaluation. Their premises: jumps in
//! the code go to later places, and from where the evaluation begins each bound is answered.
#![tactic(auto)]

mod compute;
mod event;
mod frames;
pub mod machine;
mod running;
mod step;

pub use event::{Halt, TrapKind};
pub use machine::Machine;

#[cfg(test)]
mod tests;
