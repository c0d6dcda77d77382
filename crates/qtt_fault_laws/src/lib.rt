//! Each fault of reading keeps what a refusal keeps.
//!
//! Whatever lexing, layout, the grammar and the looking up of names answer as a fault,
//! `qtt_diag` knows what a refusal keeps of it (`faults_are_kept`), so that each text with a fault
//! is refused for it.
#![tactic(auto)]

mod laws;

pub use laws::faults_are_kept;
