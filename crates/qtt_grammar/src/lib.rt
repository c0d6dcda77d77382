//! The grammar of module texts, and what reading them from left to right gives.
//!
//! The grammar is a relation between tokens with marks and trees, in which brackets leave no
//! trace and the limits on nesting and on counts are part of the rules; the limit on indices
//! and fields counts the binders of the tree's chains. Tokens are those of a text within every
//! limit, or pass a limit first, or have a first bad token, and there is exactly one such
//! answer (`texts_have_one_answer` without the limit on indices and fields,
//! `texts_have_one_outcome` with it). A text has one tree (`trees_are_unique`); the first limit
//! that is passed and the first bad token are unique (`excesses_are_settled_once`,
//! `first_bad_tokens_are_unique`). `parse` answers exactly this (clause `exact`): the tree of a
//! text, its only one (`text`, `texts`); else the limit that is passed first (`limit`), or the
//! first bad token with the found word, of kind 9 exactly where some text goes on with it if
//! one more level may open (`bad`, `fault`). Worked: `examples`.
//!
//! A theory: its lemmas on all forms of tokens may be cited.
#![tactic(auto)]

mod application;
mod binder;
mod block;
mod body;
mod chain;
mod chain_text;
mod class;
mod count;
mod errors;
pub mod examples;
mod expr;
mod item;
mod laws;
mod level;
mod lexeme;
mod lexemes;
mod lines;
mod parser;
mod pattern;
mod stop;
mod text;
mod token;
mod typing;

pub use class::{Class, Pass, Standing};
pub use errors::GrammarError;
pub use laws::{
    excesses_are_settled_once, first_bad_tokens_are_unique, texts_have_one_answer,
    texts_have_one_outcome, trees_are_unique,
};
pub use parser::parse;
pub use stop::Excess;
