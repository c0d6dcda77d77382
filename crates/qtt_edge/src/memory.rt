//! Implementations in memory, which tell their content.
//!
//! Each has two forms: over `NeverFails` no call fails, and over a list of calls these fail,
//! change nothing else, and are counted.

pub mod byte_sink;
pub mod byte_source;
pub mod map_vault;
pub mod tape_rack;
