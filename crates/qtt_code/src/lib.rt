//! The code of a program: instructions in blocks, what they do, and their listing.
//!
//! What each instruction does to the frames of the machine is a relation, with the instructions
//! that are ticks; a run has one halt (`laws::halts_are_unique`). `listing` writes exactly the
//! defined text.
//!
//! A theory: the lemmas behind its laws may be cited.
#![tactic(auto)]

pub mod block;
pub mod examples;
pub mod instr;
pub mod laws;
pub mod lines;

pub use block::{Block, Program};
pub use instr::Instr;
pub use lines::listing;
