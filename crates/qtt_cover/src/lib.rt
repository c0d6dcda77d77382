//! Coverage: the ends of a case tree at which no clause is left.
//!
//! Leaves, excluded constructors and missing clauses are the ends of a tree, numbered together in
//! tree order from 0. `first_missing` gives the number of the first end at which a clause is
//! missing, and none exactly where there is no such end; it takes no memory. `patterns` gives the
//! patterns that lead there. Numbers have 32 bits: `is_numbered` is the test beside that condition.
#![tactic(auto)]

mod copying;
mod ends;
#[cfg(test)]
mod tests;

pub use ends::{first_missing, is_numbered, patterns};
