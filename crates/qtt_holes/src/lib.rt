//! Holes in tail position: their goals, the names in sight, and the uses that are left.
//!
//! `specs/Walk` says how the way to a hole is judged: a `\`, a `let` and a `do` have the premises
//! of their rules, but their last part is walked and not checked, and a variable declared 1 fits
//! where it was used at most once before the hole. `specs/Rules` is the same as a relation, rule by
//! rule: without a bound the walk ends with a hole exactly where the rules derive it
//! (`laws::holes_are_derived`). `specs/Hole` says what is told of a hole. Worked:
//! `examples::holes_as_worked`, `holes_derived_as_worked`.
//!
//! `walk` answers that way within a budget for each question, exactly but for want of memory
//! (`specs/Answered` says what its answers mean: what is found is derived, what fails has no
//! derivation, what is spent is the first question that is).
//!
//! `show` writes exactly the lines of a hole (`examples::hole_texts_as_worked`).
//!
//! A theory: its lemmas may be cited.
#![tactic(auto)]

mod calls;
pub mod examples;
mod hole;
pub mod laws;
mod remains;
mod reports;
mod sight;
mod telling;
mod walker;
mod ways;

pub use calls::walk;
pub use hole::{Hole, Seen};
pub use reports::Report;
pub use telling::show;
