//! Definitions by clauses: their case trees, and the terms that these are assembled to.
//!
//! `specs/Plan` is the tree as the questions that its making asks, premise by premise, and
//! `specs/Relation` the same as a relation on nodes and branches; `specs/Group` is the judgement of
//! a definition by clauses, over any judgement of expressions. A tree needs no more splits than its
//! clauses have constructor patterns (`laws::splits_are_enough`). Worked:
//! `examples::trees_as_worked`, `bodies_as_worked` and `refusals_as_worked`.
//!
//! `Tree` is a case tree in code, and `specs/View` what it stands for; `glue` gives exactly the
//! term that it is assembled to, with a right side for each leaf.
//!
//! `specs/Laws` states the clause laws: a definition applied to values goes on as the first clause
//! that fits. The crate of clause laws, above this one, proves them.
//!
//! `plan` makes the tree of a definition, exactly but for want of memory: it ends as the questions
//! of `specs/Plan` do within a budget for each, and `specs/Planned` says what its answer means
//! without one. (`specs/Answers` is what each call below it tells: its answer, the premise that is
//! false, or the question that is spent.) `specs/Prepared` parts a node's questions: those before
//! its branches, which are one call, and the branches, over which the recursion goes. `specs/Ways`
//! is the motive's way through the targets, one after another.
//!
//! A theory: its lemmas may be cited.
#![tactic(auto)]

mod assembly;
mod branching;
mod columns;
mod constructors;
mod context;
mod division;
mod ends;
pub mod examples;
mod frames;
mod free;
mod growing;
mod labels;
pub mod laws;
mod leading;
mod leaf;
mod levels;
mod limits;
mod mentions;
mod motive;
mod node;
mod occurrences;
mod opening;
mod patterns;
mod planner;
mod planning;
mod prepared;
mod rebinding;
mod reports;
mod reverting;
mod sights;
mod site;
mod start;
mod steps;
mod substitution;
mod tree;
mod unifying;
mod verdicts;
mod ways;
mod widths;

pub use assembly::glue;
pub use planning::{Planned, plan};
pub use tree::{Branch, Deleting, Leaf, Report, Splitting, Tree};
