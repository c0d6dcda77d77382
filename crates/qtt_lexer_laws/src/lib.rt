//! The tokens of a text and its first fault, by what stands there.
//!
//! Bytes are cut into parts, each the longest that begins there, and have the tokens of these, or
//! a fault stands behind such parts: its kind, place, length and word are told by what stands
//! there. Exactly one of the two holds, with one list or one fault
//! (`laws::texts_are_cut_or_faulty`), and `lex` answers it (`laws::lexing_tells_them`). Worked:
//! `laws::faults_as_worked`.
#![tactic(auto)]

pub mod laws;
