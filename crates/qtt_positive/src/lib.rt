//! Strict positivity of families.
//!
//! `positive` accepts exactly the families whose fields' types are all good, and else tells the
//! first constructor and field that is not; it takes no memory. `laws`: the first bad field is
//! what its definition says in words of good types (`first_bad_is_first`). Worked:
//! `examples::positivity_as_worked`.
//!
//! A theory: its lemmas may be cited.
#![tactic(auto)]

pub mod examples;
mod fields;
pub mod laws;
mod occurrence;

pub use fields::{BadField, positive};
