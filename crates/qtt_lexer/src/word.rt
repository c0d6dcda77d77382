//! Names, keywords and holes at the front of characters.

ghost use Rattle.std.specs.Prelude.{◌≡◌, ◌<◌, ◌≤◌, ◌^◌, if◌then◌else◌, None, Some, IfOk, length, string_bytes};
ghost use Rattle.qtt_base.specs.Parts.{has_long_part};
ghost use Rattle.std.specs.Str.{encode_utf8_all};
ghost use Rattle.qtt_lexer.specs.Characters.{begins_part, goes_on};
ghost use Rattle.qtt_lexer.specs.Piece.{name_tail, name_length, reserved, bad, word_of, name_at, names_hole, hole_of, hole_at};

use crate::names::has_one_part;
use crate::piece::{Cause, Piece};
use crate::token::TokenKind;
use qtt_base::{MemoryError, Name, NameError};
use std::alloc::Global;

/// Whether a part of a name may begin with the character.
pub fn begins_part(character: char) -> bool
    ensures { result ≡ begins_part character }
{
    unicode_ident::is_xid_start(character) || character == '_'
}

fn goes_on(character: char, behind: &[char]) -> bool
    ensures { result ≡ goes_on character behind.now }
{
    if unicode_ident::is_xid_continue(character) || character == '\'' {
        return true;
    }
    match behind {
        [next, ..] => character == '.' && begins_part(*next),
        [] => false,
    }
}

fn name_tail(characters: &[char]) -> usize
    ensures value { result ≡ name_tail characters.now }
    ensures within { result ≤ length characters.now }
{
    for (i, character) in characters.iter().enumerate() {
        if !goes_on(*character, &characters[i + 1..]) {
            return i;
        }
    }
    characters.len()
}

/// How many characters the name has that begins here.
pub fn name_length(characters: &[char]) -> usize
    ensures value { result ≡ name_length characters.now }
    ensures within { result ≤ length characters.now }
{
    match characters {
        [_, behind @ ..] => name_tail(behind) + 1,
        [] => 0,
    }
}

/// The keyword or the wildcard that a word is.
pub fn reserved(word: &str) -> Option<TokenKind>
    ensures { result ≡ reserved word.now }
{
    match word {
        "module" => Some(TokenKind::Module),
        "import" => Some(TokenKind::Import),
        "data" => Some(TokenKind::Data),
        "where" => Some(TokenKind::Where),
        "do" => Some(TokenKind::Do),
        "let" => Some(TokenKind::Let),
        "in" => Some(TokenKind::In),
        "partial" => Some(TokenKind::Partial),
        "the" => Some(TokenKind::The),
        "Type" => Some(TokenKind::Type),
        "_" => Some(TokenKind::Wildcard),
        _ => None,
    }
}

/// The characters in UTF-8.
pub fn spelled(alloc: Global, characters: &[char]) -> Result<String, MemoryError>
    ensures { IfOk result (λ text. string_bytes text ≡ encode_utf8_all characters.now) }
{
    let mut text = String::new(alloc);
    for character in characters {
        text.push(*character)?;
    }
    Ok(text)
}

/// A character that begins nothing.
pub fn bad(character: char) -> Piece
    ensures { result ≡ bad character }
{
    Piece::Wrong(Cause::BadCharacter(character), 0, 1)
}

fn name(alloc: Global, word: &str) -> Result<Option<Name>, MemoryError>
    ensures { IfOk result (λ name. name ≡
        (if has_long_part word.now then None else Some word.now)) }
{
    match Name::new(alloc, word) {
        Ok(name) => Ok(Some(name)),
        Err(NameError::TooLong) => Ok(None),
        Err(NameError::Memory) => Err(MemoryError),
    }
}

fn word_of(alloc: Global, len: usize, word: &str) -> Result<Piece, MemoryError>
    ensures { IfOk result (λ piece. piece ≡ word_of len word.now) }
{
    let Some(name) = name(alloc, word)? else {
        return Ok(Piece::Wrong(Cause::NameTooLong, 0, len));
    };
    Ok(match reserved(word) {
        Some(kind) => Piece::Token(kind, len),
        None => Piece::Token(TokenKind::Name(name), len),
    })
}

/// The name, keyword or wildcard that begins here.
#[tactic(auto, unfolding(crate::specs::Piece::name_at))]
pub fn name_at(alloc: Global, characters: &[char]) -> Result<Piece, MemoryError>
    ensures { IfOk result (λ piece. piece ≡ name_at characters.now) }
{
    let len = name_length(characters);
    let word = spelled(alloc, &characters[..len])?;
    word_of(alloc, len, word.as_str())
}

fn names_hole(word: &str) -> bool
    ensures { result ≡ names_hole word.now }
{
    match reserved(word) {
        Some(_) => false,
        None => has_one_part(word),
    }
}

fn hole_of(alloc: Global, len: usize, word: &str) -> Result<Piece, MemoryError>
    requires { len < 2 ^ 32 }
    ensures { IfOk result (λ piece. piece ≡ hole_of len word.now) }
{
    if !names_hole(word) {
        return Ok(bad('?'));
    }
    Ok(match name(alloc, word)? {
        Some(name) => Piece::Token(TokenKind::Hole(name), len + 1),
        None => Piece::Wrong(Cause::NameTooLong, 1, len),
    })
}

/// The hole that begins with a `?` before these characters.
#[tactic(auto, unfolding(crate::specs::Piece::hole_at))]
pub fn hole_at(alloc: Global, characters: &[char]) -> Result<Piece, MemoryError>
    requires { length characters.now < 2 ^ 32 }
    ensures { IfOk result (λ piece. piece ≡ hole_at characters.now) }
{
    match characters {
        [first, ..] if begins_part(*first) => {
            let len = name_length(characters);
            let word = spelled(alloc, &characters[..len])?;
            hole_of(alloc, len, word.as_str())
        }
        _ => Ok(bad('?')),
    }
}
