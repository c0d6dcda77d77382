//! The generated modules, by which builds of many modules are tried.
//!
//! `generate` gives exactly the names and texts of the modules of a number, in order, `Main`
//! last. Four for each number and `Main` (`laws::modules_are_counted`); each text is what the
//! printer of module texts writes of its tree (`laws::texts_are_canonical`). Worked:
//! `examples::texts_as_worked`.
//!
//! A theory: its lemmas may be cited.
#![tactic(auto)]

pub mod examples;
pub mod generating;
pub mod laws;
mod texts;

pub use generating::generate;
