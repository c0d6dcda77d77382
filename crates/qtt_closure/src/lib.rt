//! Closure conversion: functions in a list, each with what it captures.
//!
//! `convert` is exactly the definition, captured variables outermost first. Steps of an erased
//! term without erased uses are exactly those of its converted form
//! (`laws::conversion_stands_for_its_term`, `flat_terms_run_in_step`).
//!
//! A theory: its lemmas may be cited.
#![tactic(auto)]

mod captures;
pub mod converting;
pub mod examples;
pub mod flat;
pub mod laws;
mod scope;

pub use converting::{convert, convert_from};
pub use flat::{Flat, FlatBranch, FlatTerm, Function};
