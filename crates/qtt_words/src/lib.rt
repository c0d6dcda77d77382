//! The words of the command line.
//!
//! `read_words` answers exactly what the words ask for (`specs/Asked`): the command, the module or
//! the number of generated modules, and the steps, the budget and the jobs with their ranges and
//! defaults. None is for words that ask for nothing. The words are read by the crate `clap`, which
//! takes exactly the lines of the definition (`laws::clap_takes_lines`). Worked: `examples`.
#![tactic(auto)]

mod command;
pub mod examples;
pub mod laws;
mod line;
mod name;
mod number;
mod request;

pub use line::read_words;
pub use request::{Command, Generation, Request};

#[cfg(test)]
mod tests;
