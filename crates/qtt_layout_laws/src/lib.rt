//! The layout of a text by what its blocks are for a reader.
//!
//! Where a block begins, that each of its items begins at its column, and what ends it are a
//! relation over the tokens of a text (specs/Blocks.antt). The layout of tokens is what this
//! relation gives, marks and refusals alike (`laws::layout_is_by_columns`), and the relation has
//! one answer for each text (`laws::layout_has_one_answer`). A block opens at the first token and
//! directly behind each `where` and `do`, and nowhere else (`laws::layout_opens_blocks`). Worked:
//! `examples::words_as_worked`, `layouts_as_worked`.
#![tactic(auto)]

pub mod examples;
pub mod laws;
