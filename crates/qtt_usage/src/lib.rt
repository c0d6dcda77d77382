//! The multiplicities 0, 1 and many, and how often the variables of a context are used.
//!
//! `Mult::{add, mul, join, fits}` are the tables of sum, product, join and permitted use.
//! `Usage` adds, joins, scales and takes entry by entry, and takes no memory for it. `laws`:
//! multiplicities are a semiring with an order that all three operations keep, the join law
//! over all 243 cases (`join_law`), and lists agree with use vectors (`lists_are_use_vectors`).
//!
//! A theory: its lemmas may be cited.
#![tactic(auto)]

pub mod laws;
pub mod mult;
pub mod usage;
