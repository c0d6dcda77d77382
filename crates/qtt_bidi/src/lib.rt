//! Elaboration of expressions, in two directions: its definitions and their laws.
//!
//! `specs/Elaboration` is the table: each rule as its list of premises, in order, with what a
//! false one keeps and where; `specs/Meaning` says what a global name stands for, and
//! `specs/Rules` is the same as a relation, rule by rule. Without a bound the table gives
//! exactly what the rules derive, its type, core and uses (`laws::elaborated_is_derived`). It
//! asks for no reading of an index, so that it ends alike over environments with the same
//! definitions (`elaboration_asks_for_no_reading`). The laws of lists of questions, one ending
//! and larger budgets among them, are those of `qtt_confluence::lists`. `examples`: worked
//! programs, each premise false once, and points where a rule leaves a choice.
//!
//! What fails without a bound has no derivation (`laws::failures_are_underived`); within a budget
//! for each question, what is given is derived, what fails does so without a bound, and what is
//! spent is the first question that is (`laws::budgets_answer_so`); what is checked has the given
//! type (`laws::checked_has_the_given_type`).
//!
//! A derivation stands in every larger environment in which the names of its expression stand for
//! the same items (`laws::derivations_grow`).
//!
//! `synth` and `check` answer the table within a budget for each question, exactly but for want of
//! memory (`specs/Elaborated` says what their answers mean: what is given is derived, what fails
//! has no derivation, what is spent is the first question that is). `Elaborator` offers the parts,
//! for callers that go a part of the way: an expression in a scope, whether it is a type, the value
//! of a `let`, what a binder is written with; beside it stand the names and places that are told of
//! binders and statements. A form that no read text has, a hole or a name without a target, is
//! answered as want of memory, where the table has a cause of its own.
//!
//! A theory: its lemmas may be cited.
#![tactic(auto)]

mod applications;
mod blocks;
mod calls;
mod elaboration;
mod ends;
pub mod examples;
mod functions;
mod judged;
pub mod laws;
mod leaves;
mod meaning;
mod places;
mod premises;
mod scope;
mod signatures;
mod type_heads;

pub use calls::{check, synth};
pub use ends::{Binding, bound_place, mult_after};
pub use judged::{ActionType, Checked1, Classified, FunctionType, Judged, Mode, Synth};
pub use places::{binder_name, binder_place, first_place, first_token};
pub use premises::{Elaborator, under, written_name};
pub use scope::Scope;
