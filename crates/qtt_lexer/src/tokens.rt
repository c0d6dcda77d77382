//! The tokens of a text.

ghost use Rattle.std.specs.Prelude.{◌≡◌, ◌+◌, ◌*◌, ◌<◌, ◌≤◌, ◌^◌, [], length, take, nat_lt, Err, IfOk, IfErr};
ghost use Rattle.std.specs.Str.{chars};
ghost use Rattle.std.specs.Str.Lossy.{utf8_valid_len};
ghost use Rattle.qtt_lexer.specs.Place.{start};
ghost use Rattle.qtt_lexer.specs.Forms.{IsText, HasPlaceIn};
ghost use Rattle.qtt_lexer.specs.Lexed.{Gives, Refuses, seen, kind_of, kept_word, mistake, token, tokens_from, with_front, ReadsPiece, without_mark, lexed};

use crate::errors::LexError;
use crate::front::piece_at;
use crate::piece::{Cause, Piece};
use crate::place::Place;
use crate::token::{Token, TokenKind};
use crate::word::spelled;
use qtt_base::{Fault, MemoryError};
use std::alloc::Global;

fn kind_of(cause: Cause) -> u8
    ensures { result ≡ kind_of cause }
{
    match cause {
        Cause::NotUtf8 => 1,
        Cause::BadCharacter(_) => 2,
        Cause::OpenText => 3,
        Cause::OpenComment => 4,
        Cause::NumberTooWide => 5,
        Cause::NameTooLong => 6,
    }
}

fn kept_word(alloc: Global, cause: Cause) -> Result<Vec<u8>, MemoryError>
    ensures { IfOk result (λ word. word.items ≡ kept_word cause) }
{
    let mut word = String::new(alloc);
    if let Cause::BadCharacter(character) = cause {
        word.push(character)?;
    }
    Ok(word.into_bytes())
}

fn fault(alloc: Global, cause: Cause, place: Place, len: usize) -> Result<Fault, MemoryError>
    requires { len < 2 ^ 32 }
    ensures { IfOk result (λ fault. seen fault ≡ mistake cause place len) }
{
    Ok(Fault {
        kind: kind_of(cause),
        span: place.span(len),
        word: kept_word(alloc, cause)?,
        count: 0,
    })
}

fn token(
    alloc: Global,
    kind: TokenKind,
    place: Place,
    characters: &[char],
) -> Result<Token, MemoryError>
    requires { length characters.now < 2 ^ 32 }
    ensures { IfOk result (λ made. made ≡ token kind place characters.now) }
{
    Ok(Token {
        kind,
        span: place.span(characters.len()),
        text: spelled(alloc, characters)?.into_bytes().into(),
    })
}

fn refused(alloc: Global, cause: Cause, place: Place, len: usize) -> LexError
    requires { len < 2 ^ 32 }
    ensures { Refuses result (Err (mistake cause place len)) }
{
    match fault(alloc, cause, place, len) {
        Ok(fault) => LexError::Fault(fault),
        Err(MemoryError) => LexError::Memory,
    }
}

// Reads the piece at the front, and answers its number of characters.
fn read_piece(
    alloc: Global,
    broken: bool,
    place: Place,
    characters: &[char],
    tokens: &mut Vec<Token>,
) -> Result<usize, LexError>
    requires some { 0 < length characters.now }
    requires few { length characters.now < 2 ^ 29 }
    requires line { place.line + length characters.now < 2 ^ 32 }
    requires col { place.col + 8 * length characters.now < 2 ^ 32 }
    ensures ok { IfOk result (ReadsPiece broken place characters.now tokens.old.items
        tokens.new.items) }
    ensures err { IfErr result (λ e. Refuses e (tokens_from broken place 0 characters.now)) }
{
    match piece_at(alloc, broken, characters)? {
        Piece::Gap(len) => Ok(len),
        Piece::Token(kind, len) => {
            tokens.push(token(alloc, kind, place, &characters[..len])?)?;
            Ok(len)
        }
        Piece::Wrong(cause, before, len) => {
            Err(refused(alloc, cause, place.after(&characters[..before]), len))
        }
    }
}

fn read_end(
    alloc: Global,
    broken: bool,
    place: Place,
    mut tokens: Vec<Token>,
) -> Result<Vec<Token>, LexError>
    ensures { Gives result (with_front tokens.items (tokens_from broken place 0 [])) }
{
    if broken {
        return Err(refused(alloc, Cause::NotUtf8, place, 0));
    }
    tokens.push(token(alloc, TokenKind::End, place, &[])?)?;
    Ok(tokens)
}

fn lex_characters(alloc: Global, broken: bool, characters: &[char]) -> Result<Vec<Token>, LexError>
    requires { length characters.now < 2 ^ 29 }
    ensures { Gives result (tokens_from broken start 0 characters.now) }
{
    let mut tokens = Vec::new(alloc);
    let mut place = Place { line: 1, col: 1 };
    let mut rest = characters;
    'pieces: while !rest.is_empty() {
        let len = read_piece(alloc, broken, place, rest, &mut tokens)?;
        place = place.after(&rest[..len]);
        rest = &rest[len..];
    }
    read_end(alloc, broken, place, tokens)
}

// The text before the first byte that is no part of a character, and whether there is such a
// byte.
fn front_text(bytes: &[u8]) -> (&str, bool)
    ensures text { result.0.now ≡ take (utf8_valid_len bytes.now) bytes.now }
    ensures broken { result.1 ≡ nat_lt (utf8_valid_len bytes.now) (length bytes.now) }
{
    let error = match str::from_utf8(bytes) {
        Ok(text) => return (text, false),
        Err(error) => error,
    };
    match str::from_utf8(&bytes[..error.valid_up_to()]) {
        Ok(text) => (text, true),
        Err(_) => unreachable!(),
    }
}

fn characters_of(alloc: Global, text: &str) -> Result<Vec<char>, MemoryError>
    ensures value { IfOk result (λ characters. characters.items ≡ chars text.now) }
    ensures few { IfOk result (λ characters. length characters.items ≤ length text.now) }
{
    Ok(text.chars().collect(alloc)?)
}

fn without_mark(characters: &[char]) -> &[char]
    ensures value { result.now ≡ without_mark characters.now }
    ensures few { length result.now ≤ length characters.now }
{
    match characters {
        ['\u{FEFF}', behind @ ..] => behind,
        _ => characters,
    }
}

/// The tokens of a module's text.
pub fn lex(alloc: Global, bytes: &[u8]) -> Result<Vec<Token>, LexError>
    requires { length bytes.now < 2 ^ 29 }
    // Exactly the tokens, or the first fault.
    ensures exact { Gives result (lexed bytes.now) }
    // The tokens, with the blanks and comments between them, make up the text; each is the
    // longest that begins there.
    ensures text { IfOk result (λ tokens. IsText bytes.now tokens.items) }
    // A fault has a place in the text or directly behind it.
    ensures place { IfErr result (HasPlaceIn bytes.now) }
{
    let (text, broken) = front_text(bytes);
    let characters = characters_of(alloc, text)?;
    lex_characters(alloc, broken, without_mark(characters.as_slice()))
}
