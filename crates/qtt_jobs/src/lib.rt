//! Many jobs, at most so many at once.
//!
//! `in_groups` gives what a `Work` answers to each job, in their order, or the first error in
//! their order, for every number of jobs at once.
#![tactic(auto)]

mod groups;
#[cfg(test)]
mod tests;
mod work;

pub use groups::in_groups;
pub use work::Work;
