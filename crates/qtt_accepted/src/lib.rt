//! What accepted modules keep: their environment is well formed, so that each core is typed.
//!
//! An accepted module keeps the environment well formed, and complete where it has no hole
//! (`laws::modules_keep_form`); so what an accepted build declares, over Prim, is well formed and,
//! without a hole, complete (`laws::builds_are_formed`): each type of a parameter, an index, a
//! field or a signature is a type in the core judgement, each family strictly positive, and each
//! body of its signature's type with no use. A module is to be under ids that are new, its
//! signatures marked 0 or not at all, and no two of its signatures or groups of clauses of one
//! name.
//!
//! Looking up the names of a text and filling it give that: its signatures and its groups of
//! clauses have names of their own, and marks stay (`laws::texts_are_well_named`). So an accepted
//! text keeps the environment well formed, and complete where it has no hole, once its part is
//! adopted (`laws::texts_keep_form`), also where others that were judged over the same environment
//! were adopted before it (`laws::texts_keep_form_beside`). Over a well-formed environment it
//! declares one thing alone, and a text that is refused for another cause than a budget declares
//! nothing (`laws::texts_declare_once`).
//!
//! Under it: an accepted signature, family or body keeps the environment well formed
//! (`laws::signatures_keep_form`, `families_keep_form`, `bodies_keep_form`); what elaboration gives
//! stays in its scope (`laws::elaboration_stays_in_scope`) and holds no open tape, nor does the
//! body that a group of clauses gives (`laws::elaboration_makes_no_tape`, `groups_make_no_tape`);
//! and strict positivity leaves no match of the family that is being declared
//! (`laws::good_fields_hold_no_case`).
//!
//! Each body that comes with an accepted text is that of a group of its clauses, and its definition
//! goes on as these say, also once more texts are adopted (`laws::texts_go_by_clauses`,
//! `laws::by_clauses_stay`, `laws::clauses_are_followed`). A premise for which a text is refused is
//! false with convertible terms in place of contractions (`laws::premises_are_false_so`).
//!
//! `check_module` is the judgement of a text with these promises as a clause: what it accepts keeps
//! the environment well formed, and what a text declares it accepts, unless a question takes more
//! than the budget.
#![tactic(auto)]

mod judging;
pub mod laws;

pub use judging::check_module;
