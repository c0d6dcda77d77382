//! Lexemes of tokens with marks.

ghost use Rattle.std.specs.Prelude.{◌≡◌, false, reverse, IfOk, OnOk};
ghost use Rattle.qtt_base.specs.Parts.{has_long_part};
ghost use Rattle.qtt_grammar.specs.Lexeme.{name_class, number_class, sign, token_lexeme, lexeme_of, joined, lexemes};

use crate::class::Class;
use crate::lexeme::Lexeme;
use qtt_base::{MemoryError, Name, Span};
use qtt_layout::Laid;
use qtt_lexer::{Bytes, Token, TokenKind, is_big, is_simple};
use std::alloc::Global;

fn name_class(name: &Name) -> Class
    ensures { result ≡ name_class name.now }
{
    match (is_simple(name), is_big(name)) {
        (true, true) => Class::Big,
        (true, false) => Class::Small,
        (false, true) => Class::BigPath,
        (false, false) => Class::SmallPath,
    }
}

// A number by its spelling.
fn number_class(spelling: &[u8], number: i64) -> Class
    ensures { result ≡ number_class spelling.now number }
{
    match spelling {
        [b'0'] => Class::Zero,
        [b'1'] => Class::One,
        _ => {
            if number < 0 {
                Class::Negative
            } else {
                Class::Natural
            }
        }
    }
}

fn class_of(token: &Token) -> Class
    ensures { result ≡ (token_lexeme token.now.kind token.now.span token.now.text).class }
{
    match &token.kind {
        TokenKind::Module => Class::Module,
        TokenKind::Import => Class::Import,
        TokenKind::Data => Class::Data,
        TokenKind::Where => Class::Where,
        TokenKind::Do => Class::Do,
        TokenKind::Let => Class::Let,
        TokenKind::In => Class::In,
        TokenKind::Partial => Class::Partial,
        TokenKind::The => Class::The,
        TokenKind::Type => Class::Universe,
        TokenKind::Name(name) => name_class(name),
        TokenKind::Wildcard => Class::Wildcard,
        TokenKind::Number(number) => number_class(token.text.as_slice(), *number),
        TokenKind::Text(_) => Class::Text,
        TokenKind::Hole(_) => Class::Hole,
        TokenKind::LeftParen => Class::LeftParen,
        TokenKind::RightParen => Class::RightParen,
        TokenKind::DotParen => Class::DotParen,
        TokenKind::Arrow => Class::Arrow,
        TokenKind::LeftArrow => Class::LeftArrow,
        TokenKind::FatArrow => Class::FatArrow,
        TokenKind::Colon => Class::Colon,
        TokenKind::Equals => Class::Equals,
        TokenKind::Semicolon => Class::Other,
        TokenKind::Backslash => Class::Backslash,
        TokenKind::LeftBrace => Class::LeftBrace,
        TokenKind::RightBrace => Class::RightBrace,
        TokenKind::End => Class::Other,
    }
}

fn name_of(alloc: Global, token: &Token) -> Result<Name, MemoryError>
    ensures { IfOk result (λ name. name ≡
        (token_lexeme token.now.kind token.now.span token.now.text).name) }
{
    match &token.kind {
        TokenKind::Name(name) => name.copy(),
        TokenKind::Hole(name) => name.copy(),
        TokenKind::Wildcard => new_name(alloc, "_"),
        _ => new_name(alloc, ""),
    }
}

/// A name whose parts are short.
pub fn new_name(alloc: Global, text: &str) -> Result<Name, MemoryError>
    requires { has_long_part text.now ≡ false }
    ensures { IfOk result (λ name. name ≡ text.now) }
{
    Name::new(alloc, text).map_err(|_| MemoryError)
}

fn text_of(alloc: Global, token: &Token) -> Result<Bytes, MemoryError>
    ensures { IfOk result (λ text. text ≡
        (token_lexeme token.now.kind token.now.span token.now.text).text) }
{
    match &token.kind {
        TokenKind::Text(text) => text.copy(),
        _ => Bytes::from_slice(alloc, &[]),
    }
}

fn number_of(token: &Token) -> i64
    ensures { result ≡ (token_lexeme token.now.kind token.now.span token.now.text).number }
{
    match &token.kind {
        TokenKind::Number(number) => *number,
        _ => 0,
    }
}

fn mark(alloc: Global, class: Class, place: Span, found: &[u8]) -> Result<Lexeme, MemoryError>
    ensures { IfOk result (λ x. x ≡ record (sign class place) { found = found.now }) }
{
    Ok(Lexeme {
        class,
        place,
        name: new_name(alloc, "")?,
        text: Bytes::from_slice(alloc, &[])?,
        number: 0,
        number_place: place,
        found: Bytes::from_slice(alloc, found)?,
    })
}

fn token(alloc: Global, token: &Token) -> Result<Lexeme, MemoryError>
    ensures { IfOk result (λ x. x ≡ record
        (token_lexeme token.now.kind token.now.span token.now.text) { found = token.now.text }) }
{
    Ok(Lexeme {
        class: class_of(token),
        place: token.span,
        name: name_of(alloc, token)?,
        text: text_of(alloc, token)?,
        number: number_of(token),
        number_place: token.span,
        found: token.text.copy()?,
    })
}

fn lexeme(alloc: Global, laid: &Laid) -> Result<Lexeme, MemoryError>
    ensures { IfOk result (λ x. x ≡ lexeme_of laid.now) }
{
    match laid {
        Laid::Open(place) => mark(alloc, Class::Open, *place, b"open"),
        Laid::Next(place) => mark(alloc, Class::Next, *place, b"next"),
        Laid::Close(place) => mark(alloc, Class::Close, *place, b"close"),
        Laid::Tok(one) => token(alloc, one),
    }
}

// Puts a lexeme before those found so far, which stand in reverse order.
fn put_before(found: &mut Vec<Lexeme>, lexeme: Lexeme) -> Result<(), MemoryError>
    ensures { OnOk result (reverse found.new.items ≡ joined lexeme (reverse found.old.items)) }
{
    let mut lexeme = lexeme;
    if let Some(next) = found.last() {
        if Class::Universe.same(lexeme.class) && next.class.is_natural() {
            lexeme.number = next.number;
            lexeme.number_place = next.place;
            found.pop();
        }
    }
    found.push(lexeme)?;
    Ok(())
}

/// The lexemes of tokens with marks.
pub fn lexemes(alloc: Global, laid: &[Laid]) -> Result<Vec<Lexeme>, MemoryError>
    ensures { IfOk result (λ found. found.items ≡ lexemes laid.now) }
{
    let mut found = Vec::new(alloc);
    let mut left = laid.len();
    'marks: while left > 0 {
        left -= 1;
        put_before(&mut found, lexeme(alloc, &laid[left])?)?;
    }
    found.reverse();
    Ok(found)
}
