//! The tokens of a module's text.
//!
//! `lex` answers exactly the tokens of the bytes, or the first fault with its kind, place and
//! word (`exact`). Tokens and what stands between them make up the text, each has its form by a
//! definition of its own, none could be longer, and spans are the places of the characters
//! (`text`); each fault has a place in the text or directly behind it (`place`). Worked:
//! `examples::tokens_as_worked`.
//!
//! A theory: its lemmas may be cited.
#![tactic(auto)]

mod bytes;
mod comment;
mod errors;
pub mod examples;
mod front;
mod names;
mod number;
mod piece;
mod place;
mod quoted;
mod symbol;
mod token;
mod tokens;
mod word;

pub use bytes::Bytes;
pub use errors::LexError;
pub use names::{is_big, is_simple};
pub use token::{Token, TokenKind};
pub use tokens::lex;
