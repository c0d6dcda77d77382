//! Erasure of core terms to terms without what carries no content at run time.
//!
//! `erase` is exactly the definition of erasure. For terms without erased uses, a full step is
//! exactly one step of the erased term, and values, traps and the property itself are kept
//! (`laws::erased_terms_run_in_step`).
//!
//! A theory: its lemmas may be cited.
#![tactic(auto)]

pub mod erasing;
pub mod examples;
pub mod laws;
pub mod lean;
pub mod multiplicities;
pub mod scope;

pub use erasing::erase;
pub use lean::{Lean, LeanBranch};
