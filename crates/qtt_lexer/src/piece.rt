//! What stands at the front of characters.

use crate::token::TokenKind;

/// What is wrong with a text.
#[derive(Clone, Copy, Debug, PartialEq, Eq)]
pub enum Cause {
    NotUtf8,
    BadCharacter(char),
    OpenText,
    OpenComment,
    NumberTooWide,
    NameTooLong,
}

/// A part of a text.
#[derive(Debug, Drop)]
pub enum Piece {
    /// A blank or a comment, and its number of characters.
    Gap(usize),
    /// A token, and its number of characters.
    Token(TokenKind, usize),
    /// A fault, how many characters stand before it, and how many it has.
    Wrong(Cause, usize, usize),
}
