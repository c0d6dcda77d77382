//! The worked programs: as environments of the definitions, well formed and complete, each with
//! its main; and the same in code, for the tests of the crates above.
//!
//! A theory: its lemmas may be cited.
#![tactic(auto)]

pub mod building;
pub mod examples;
pub mod families;
pub mod naturals;
pub mod programs;
pub mod terms;
