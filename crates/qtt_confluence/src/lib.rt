//! Confluence of contraction, and what it says of convertible terms and of their comparison.
//!
//! For every environment whose bodies are closed: two convertible terms contract to a common
//! term (`laws::contraction_is_confluent`); forms that no rule contracts are injective under
//! conversion (`types_are_injective`); heads of different outlines are not convertible
//! (`rigid_heads_differ`, `convertible_heads_agree`); what a term contracts to it contracts to
//! toward the head first (`contraction_is_standard`), so that whatever is convertible to a head
//! has one, of the same outline (`head_is_reached`); what compares Different is not convertible
//! (`different_is_apart`). For every environment: what compares Equal is
//! convertible (`equal_is_convertible`); the comparison is the recursion over heads and
//! components under one count (`compares_by_recursion`), and that count alone limits it and a
//! head (`head_is_exact`, `count_alone_limits`). `decide` answers exactly the question, by any
//! `Converter`: Equal only where the terms are convertible, Different only where they are not.
//!
//! For every list of questions (heads, readings of indices, comparisons): what it answers within
//! a budget is so without one (`lists::endings_are_so`), it has one ending (`one_ending`), and a
//! larger budget changes only what was spent (`larger_budgets_keep_endings`). Heads and
//! comparisons read definitions alone (`questions_read_definitions`), and so do lists without a
//! reading (`lists_read_definitions`).
//!
//! A theory: its lemmas may be cited.
#![tactic(auto)]

mod deciding;
pub mod laws;
pub mod lists;

pub use deciding::decide;
