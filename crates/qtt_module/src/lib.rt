//! The judgement of a module's text: its header's name, what its names stand for, what is filled
//! in, and its items in turn, each over the environment that those before it make up.
//!
//! `check_module` answers exactly the judgement of a text (`specs/Prepared`, `specs/Text`) within
//! a budget for each question: what the module gives to those that import it, what it declares and
//! its holes, or its first refusal (`specs/Refused`). What is accepted declares this by the rules,
//! without a budget; what is refused is so for its header, a name or what is filled in, for a
//! premise that is false without a budget, or for the first question that takes more than the
//! budget (`laws::texts_are_judged`). `check_main` answers exactly the test of a main: what it
//! gives is the program's main, and where it refuses for a premise there is none
//! (`laws::mains_are_judged`).
//!
//! `specs/Families` is the table of families and signatures, premise by premise, and
//! `specs/FamilyRules` the same as a relation: without a bound they agree
//! (`laws::declarations_are_derived`). A family's constructors ask for no reading of an index, so
//! it makes no difference to them that they are judged while it has none
//! (`laws::constructors_ask_for_no_reading`). `specs/Sides` is a group of clauses, some of which
//! end in a hole, and `specs/GroupRules` the same as a relation, over those of expressions and
//! holes: its tree is planned, covers and reaches each clause, each clause has at each of its
//! leaves its dots and its right side or hole, and the body is accepted
//! (`laws::groups_are_derived`). `specs/Module` is the items in turn, what is kept of an accepted
//! module, and its main; `specs/ModuleRules` is the relation, with one rule for each kind of item:
//! a module is accepted exactly where it declares what is kept of it
//! (`laws::modules_are_derived`), and a definition is the program's main exactly where its test
//! ends with it (`laws::mains_are_derived`). What a module is answered within a budget is so
//! without one, and what is spent is the first question that the budget does not answer
//! (`laws::answers_are_so`).
//! `specs/Exported` is what a module gives to those that import it: the ids of its own items by
//! their names, of two of one name the first.
//! Worked: `examples::families_as_worked`, `mains_as_worked`, `modules_as_worked`,
//! `modules_declared_as_worked`, `exports_as_worked`.
//!
//! In code: families and signatures are judged and put into the environment (`additions`), where
//! the constructors of a family are judged in place, while it stands there without any; a
//! definition by clauses gives its body or its holes (`groups`), which asks whether its tree covers
//! and reaches (`coverage`), what each clause gives at each of its leaves (`sides`), and for the
//! last judgement of the body (`bodies`); where no clause has a hole, a definition that stands
//! there with its signature alone is given that body (`given_bodies`); items are gathered to what
//! they declare (`declarations`) and judged in turn (`stage`).
//!
//! A theory: its lemmas may be cited.
#![tactic(auto)]

mod accepting;
mod additions;
mod binders;
mod bodies;
mod chains;
mod checked;
mod constructors;
mod contexts;
mod coverage;
mod declaration;
mod declarations;
mod declarer;
mod errors;
pub mod examples;
mod exports;
mod families;
mod given_bodies;
mod groups;
mod heads;
mod judge;
pub mod laws;
mod main_test;
mod names;
mod pattern_parts;
mod prepared;
mod refusals;
mod sides;
mod signatures;
mod signed;
mod stage;
mod tails;
mod text;
mod tree_leaves;

pub use checked::Checked;
pub use errors::ModuleError;
pub use main_test::check_main;
pub use text::check_module;
