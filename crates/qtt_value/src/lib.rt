//! Values of the machine, placed in an arena.
//!
//! `place` puts parts into the arena unchanged.
#![tactic(auto)]

pub mod val;

pub use val::{Val, place};

#[cfg(test)]
mod tests;
