//! The graph of a build's modules: their ranks, or the ring of imports that is told.
//!
//! `ranks` answers exactly the modules by rank and, within a rank, in byte order of their names,
//! or exactly the ring that is told: that of the least name from which imports lead back to
//! itself, the shortest one, by the earlier import. `is_whole` is the test beside its condition.
//! `laws`: a ring is told exactly where a module leads to itself (`rings_are_told`), and without
//! one each module has a rank, one above the greatest of its imports' (`ranks_are_above`).
//! Worked: `examples::graphs_as_worked`.
#![tactic(auto)]

mod errors;
pub mod examples;
pub mod laws;
mod modules;
mod places;
mod ranking;
mod ring;

pub use errors::GraphError;
pub use ranking::{is_whole, ranks};
