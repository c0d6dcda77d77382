//! Unification of a family's indices: which variables of a split a constructor's result solves.
//!
//! `specs/Equations` is the unification as the questions that it asks, in order, and
//! `specs/Unification` the same as a relation, by solution, injectivity and conflict. Without a
//! bound the questions end as the relation says (`laws::equations_are_the_relation`); a problem is
//! solved, clashes, is a deletion or is stuck, and one of these alone (`one_of_four`). Worked:
//! `examples::equations_as_worked`.
//!
//! `solve` answers a problem exactly, within a budget for each question; `Unifier` answers its
//! parts, for callers that read a split's targets once and judge many constructors.
//!
//! A theory: its lemmas may be cited.
#![tactic(auto)]

mod equations;
mod error;
pub mod examples;
pub mod laws;
mod occurrences;
mod plain;
mod reading;
mod solving;
mod targets;
mod unifier;

pub use equations::Verdict;
pub use error::UnifyError;
pub use solving::{Problem, Solved, solve};
pub use targets::Scrutinee;
pub use unifier::{Deletion, Unifier};
