//! Texts behind their opening quote.

ghost use Rattle.std.specs.Prelude.{◌≡◌, ◌<◌, ◌^◌, ◌∷◌, length, IfOk};
ghost use Rattle.qtt_lexer.specs.Piece.{escape, quoted, text_of};
ghost use Rattle.qtt_lexer.specs.Quoted.{IsStep, IsWithin};

use crate::bytes::Bytes;
use crate::piece::{Cause, Piece};
use crate::token::TokenKind;
use qtt_base::MemoryError;
use std::alloc::Global;

/// What stands behind an opening quote.
#[derive(Debug, Drop)]
pub enum Quotation {
    /// The value, and how many characters it has in the text, the closing quote among them.
    Closed(Bytes, usize),
    /// The line ends before a closing quote.
    LineEnds,
    /// So many characters, and no closing quote.
    TextEnds(usize),
    /// A backslash behind so many characters that begins no escape.
    BadEscape(usize),
}

/// What the first characters of a text stand for.
#[derive(Clone, Copy, Debug)]
pub enum Step<'a> {
    /// A character, and what is behind it.
    Character(char, &'a [char]),
    /// The closing quote.
    Closed,
    LineEnds,
    TextEnds,
    BadEscape,
}

fn escape(character: char) -> Option<char>
    ensures { result ≡ escape character }
{
    match character {
        'n' => Some('\n'),
        't' => Some('\t'),
        '\\' => Some('\\'),
        '"' => Some('"'),
        _ => None,
    }
}

// What a backslash before these characters stands for.
fn escaped(behind: &[char]) -> Step<'_>
    ensures { IsStep (92 ∷ behind.now) result }
{
    let [next, rest @ ..] = behind else {
        return Step::TextEnds;
    };
    if *next == '\n' {
        return Step::LineEnds;
    }
    match escape(*next) {
        Some(character) => Step::Character(character, rest),
        None => Step::BadEscape,
    }
}

fn next_step(characters: &[char]) -> Step<'_>
    ensures { IsStep characters.now result }
{
    let [first, behind @ ..] = characters else {
        return Step::TextEnds;
    };
    if *first == '"' {
        return Step::Closed;
    }
    if *first == '\n' {
        return Step::LineEnds;
    }
    if *first == '\\' {
        return escaped(behind);
    }
    Step::Character(*first, behind)
}

/// What stands behind an opening quote.
pub fn quoted(alloc: Global, characters: &[char]) -> Result<Quotation, MemoryError>
    ensures value { IfOk result (λ quotation. quotation ≡ quoted characters.now) }
    ensures within { IfOk result (IsWithin (length characters.now)) }
{
    let mut value = String::new(alloc);
    let mut rest = characters;
    'steps: loop {
        let before = characters.len() - rest.len();
        match next_step(rest) {
            Step::Character(character, behind) => {
                value.push(character)?;
                rest = behind;
            }
            Step::Closed => {
                return Ok(Quotation::Closed(Bytes::from(value.into_bytes()), before + 1));
            }
            Step::LineEnds => return Ok(Quotation::LineEnds),
            Step::TextEnds => return Ok(Quotation::TextEnds(characters.len())),
            Step::BadEscape => return Ok(Quotation::BadEscape(before)),
        }
    }
}

/// The text that begins with a quote before these characters.
pub fn text_at(alloc: Global, broken: bool, characters: &[char]) -> Result<Piece, MemoryError>
    requires { length characters.now < 2 ^ 32 }
    ensures { IfOk result (λ piece. piece ≡ text_of broken (quoted characters.now)) }
{
    Ok(match quoted(alloc, characters)? {
        Quotation::Closed(value, len) => Piece::Token(TokenKind::Text(value), len + 1),
        Quotation::LineEnds => Piece::Wrong(Cause::OpenText, 0, 1),
        Quotation::TextEnds(len) if broken => Piece::Wrong(Cause::NotUtf8, len + 1, 0),
        Quotation::TextEnds(_) => Piece::Wrong(Cause::OpenText, 0, 1),
        Quotation::BadEscape(before) => Piece::Wrong(Cause::BadCharacter('\\'), before + 1, 1),
    })
}
