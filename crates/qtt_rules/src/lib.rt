//! Refusals: what they keep, one variant a kind, and their kinds.
//!
//! `kind` is the table of kinds. `specs/Refusal` says what a false premise keeps, with its
//! place, rule and number, as the tables of elaboration, clauses and modules give it; a refusal
//! of the code stands for such a cause and has its kind (`laws::causes_have_their_kinds`).
//! `specs/Asks`, `specs/Judged` and `specs/Report` are what the judgements of texts share: their
//! premises, with refusals for what a false one leaves; what the judgement of an expression
//! gives; and where the use of a pattern variable is told.
#![tactic(auto)]

mod detail;
mod errors;
pub mod laws;
mod refusal;

pub use detail::Detail;
pub use errors::ElabError;
pub use refusal::{Refusal, kind};

#[cfg(test)]
mod tests;
