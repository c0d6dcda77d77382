//! What reading a text answers, by the definitions alone.
//!
//! The tree or the fault that `parsed` gives is that of the grammar's relation: the one tree of
//! the tokens within every limit, or what is told of the limit that they pass first or else of
//! their first bad token, and it is one of the two alone (`parsed_is_the_grammar`). The printed
//! text of a tree that was read is lexed, laid out and parsed as the same tree but for places,
//! and prints alike (`printed_texts_are_parsed`). Each fault of lexing, layout, the grammar and
//! names stands at a character of the text or directly behind the last one, and so does each part
//! of a tree that was read, also with the targets of its names (`faults_stand_in_the_text`).
//! Worked: `examples`.
#![tactic(auto)]

pub mod examples;
mod laws;

pub use laws::{faults_stand_in_the_text, parsed_is_the_grammar, printed_texts_are_parsed};
