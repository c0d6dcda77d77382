//! The printed text of core terms.
//!
//! `print_core` writes exactly the defined text of a term, every form of it, with the names of an
//! environment and `_` for what the names don't have; `print_definition` the line of a
//! definition; `last_part` is what is printed of a name without its module. Time and memory are
//! those of the text: one buffer is written from front to end.
//! Worked: `examples::printed_as_worked`.
#![tactic(auto)]

pub mod examples;
mod names;
pub mod printing;
mod words;

pub use names::last_part;
pub use printing::{print_core, print_definition};
