//! Questions about terms, answered by contraction with substitution.
//!
//! `BySubst` answers `head` and `compare` exactly as defined, with the exact count. Its
//! contractions use no stack of the machine, but `compare`, and a head below arguments, copy
//! and drop whole terms by recursion.
//!
//! A theory: its lemmas may be cited.
#![tactic(auto)]

mod by_subst;
mod comparing;
mod components;
mod contraction;
mod frame;
mod heads;
mod outline;
mod pair;
mod spine;

pub use by_subst::BySubst;
