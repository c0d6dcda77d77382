//! The piece at the front of characters.

ghost use Rattle.std.specs.Prelude.{◌≡◌, ℕ, ◌+◌, ◌<◌, ◌^◌, ◌∷◌, length, drop, IfOk};
ghost use Rattle.qtt_lexer.specs.Characters.{is_blank, begins};
ghost use Rattle.std.specs.Char.{is_ascii_digit};
ghost use Rattle.qtt_lexer.specs.Fitting.{Fits};
ghost use Rattle.qtt_lexer.specs.Piece.{is_dash, front_of, symbol_of, piece_at, by_front};

use crate::comment::{comment_at, line_at};
use crate::number::number_at;
use crate::piece::Piece;
use crate::quoted::text_at;
use crate::symbol::symbol_at;
use crate::token::TokenKind;
use crate::word::{bad, begins_part, hole_at, name_at};
use qtt_base::MemoryError;
use std::alloc::Global;

/// What a character begins.
#[derive(Clone, Copy, Debug, PartialEq, Eq)]
pub enum Front {
    Blank,
    /// A comment to the end of the line.
    Line,
    /// A comment to its end.
    Comment,
    Text,
    Hole,
    Name,
    Number,
    /// A number with a `-`.
    Negative,
    /// A symbol, or a character that begins nothing.
    Symbol,
}

fn is_blank(character: char) -> bool
    ensures { result ≡ is_blank character }
{
    character == ' ' || character == '\t' || character == '\n' || character == '\r'
}

fn begins_with_dash(characters: &[char]) -> bool
    ensures { result ≡ begins is_dash characters.now }
{
    match characters {
        [first, ..] => *first == '-',
        [] => false,
    }
}

fn begins_with_digit(characters: &[char]) -> bool
    ensures { result ≡ begins is_ascii_digit characters.now }
{
    match characters {
        [first, ..] => first.is_ascii_digit(),
        [] => false,
    }
}

fn front_of(first: char, behind: &[char]) -> Front
    ensures { result ≡ front_of first behind.now }
{
    if is_blank(first) {
        Front::Blank
    } else if first == '-' && begins_with_dash(behind) {
        Front::Line
    } else if first == '{' && begins_with_dash(behind) {
        Front::Comment
    } else if first == '"' {
        Front::Text
    } else if first == '?' {
        Front::Hole
    } else if begins_part(first) {
        Front::Name
    } else if first.is_ascii_digit() {
        Front::Number
    } else if first == '-' && begins_with_digit(behind) {
        Front::Negative
    } else {
        Front::Symbol
    }
}

fn symbol_of(first: char, symbol: Option<(TokenKind, usize)>) -> Piece
    ensures { result ≡ symbol_of first symbol }
{
    match symbol {
        Some((kind, len)) => Piece::Token(kind, len),
        None => bad(first),
    }
}

fn without_first(characters: &[char]) -> &[char]
    ensures { result.now ≡ drop 1 characters.now }
{
    match characters {
        [_, rest @ ..] => rest,
        [] => characters,
    }
}

fn by_front(
    alloc: Global,
    broken: bool,
    characters: &[char],
    behind: &[char],
    front: Front,
) -> Result<Piece, MemoryError>
    requires few { length characters.now < 2 ^ 31 }
    requires one_more { length characters.now ≡ length behind.now + 1 }
    ensures { (c : ℕ) → characters.now ≡ c ∷ behind.now →
        IfOk result (λ piece. piece ≡ by_front broken c behind.now front) }
{
    match front {
        Front::Blank => Ok(Piece::Gap(1)),
        Front::Line => Ok(line_at(behind)),
        Front::Comment => Ok(comment_at(broken, characters.len(), without_first(behind))),
        Front::Text => text_at(alloc, broken, behind),
        Front::Hole => hole_at(alloc, behind),
        Front::Name => name_at(alloc, characters),
        Front::Number => Ok(number_at(false, characters)),
        Front::Negative => Ok(number_at(true, behind)),
        Front::Symbol => Ok(symbol_of(characters[0], symbol_at(characters))),
    }
}

/// The piece at the front of characters; `broken` says that bytes follow them that are no
/// character.
pub fn piece_at(alloc: Global, broken: bool, characters: &[char]) -> Result<Piece, MemoryError>
    requires { length characters.now < 2 ^ 31 }
    ensures value { IfOk result (λ piece. piece ≡ piece_at broken characters.now) }
    ensures fits { 0 < length characters.now → IfOk result (Fits (length characters.now)) }
{
    let [first, behind @ ..] = characters else {
        return Ok(Piece::Gap(0));
    };
    by_front(alloc, broken, characters, behind, front_of(*first, behind))
}
