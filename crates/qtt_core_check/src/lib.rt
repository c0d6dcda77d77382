//! The core judgement: the type and the uses of a term, and what its answers say.
//!
//! `infer` answers the judgement's list of questions, of the head of a type and of whether two
//! types compare Equal, within a budget for each, by any `Converter` and over every `Globals`: a
//! type with its uses, the first premise that fails, or the first question that is spent (clause
//! `gives`). What it gives has a derivation (`sound`), what fails is not accepted, whatever the
//! term is (`failed`), and the question that is kept is the first one that the budget does not
//! answer (`spent`).
//!
//! What the list answers within a budget is so without one (`laws::endings_are_so`), it has one
//! ending (`one_ending`), and a larger budget changes only what was spent
//! (`larger_budgets_keep_endings`). It asks for no reading of an index
//! (`infer_asks_for_no_reading`). Beside the core judgement stands the one that the checker
//! accepts by, in which dead terms use nothing: each of its derivations is one of the core
//! judgement, and it has all of these for terms with Sorts of 32 bits in which, in the run part,
//! no missing clause stands (`accepted_is_typed`; worked in `dead_parts_use_nothing` and
//! `sorts_are_bounded`). What is inferred is derived in both (`infer_is_sound`). A term has one
//! type up to conversion, and one use where it is accepted (`one_type_and_use`). So without a
//! bound the list accepts exactly what has a derivation, with its type and its use
//! (`accepted_is_inferred`), and never fails on what has one (`failures_are_so`).
//!
//! A theory: its lemmas may be cited.
#![tactic(auto)]

mod inference;
mod judged;
mod judgement;
pub mod laws;
mod matching;
mod named_rows;
mod premises;
mod refusal;
mod rows;
mod scope;

pub use inference::infer;
pub use refusal::CoreRefusal;
