//! First match: the first clause whose patterns fit values.
//!
//! `first_match` tells exactly the first clause that fits, and none exactly where no clause
//! does; it takes no memory. `laws`: what is computed is the least clause all of whose patterns
//! fit, in words of patterns that fit (`first_match_is_least`). Worked:
//! `examples::matches_as_worked`.
//!
//! A theory: its lemmas may be cited.
#![tactic(auto)]

pub mod examples;
pub mod laws;
mod matching;

pub use matching::first_match;
