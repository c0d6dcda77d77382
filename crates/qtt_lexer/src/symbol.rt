//! Symbols at the front of characters.

ghost use Rattle.std.specs.Prelude.{◌≡◌, ◌∷◌, []};
ghost use Rattle.qtt_lexer.specs.Piece.{listed, pairs, singles, of_one, of_two, symbol_at};

use crate::token::TokenKind;

fn pair(first: char, second: char) -> Option<TokenKind>
    ensures { result ≡ listed pairs (first ∷ second ∷ []) }
{
    match (first, second) {
        ('.', '(') => Some(TokenKind::DotParen),
        ('-', '>') => Some(TokenKind::Arrow),
        ('<', '-') => Some(TokenKind::LeftArrow),
        ('=', '>') => Some(TokenKind::FatArrow),
        _ => None,
    }
}

fn single(character: char) -> Option<TokenKind>
    ensures { result ≡ listed singles (character ∷ []) }
{
    match character {
        '(' => Some(TokenKind::LeftParen),
        ')' => Some(TokenKind::RightParen),
        ':' => Some(TokenKind::Colon),
        '=' => Some(TokenKind::Equals),
        ';' => Some(TokenKind::Semicolon),
        '\\' => Some(TokenKind::Backslash),
        '{' => Some(TokenKind::LeftBrace),
        '}' => Some(TokenKind::RightBrace),
        _ => None,
    }
}

fn of_one(character: char) -> Option<(TokenKind, usize)>
    ensures { result ≡ of_one character }
{
    match single(character) {
        Some(kind) => Some((kind, 1)),
        None => None,
    }
}

fn of_two(first: char, second: char) -> Option<(TokenKind, usize)>
    ensures { result ≡ of_two first second }
{
    match pair(first, second) {
        Some(kind) => Some((kind, 2)),
        None => of_one(first),
    }
}

/// The longest symbol that begins here, and its number of characters.
pub fn symbol_at(characters: &[char]) -> Option<(TokenKind, usize)>
    ensures { result ≡ symbol_at characters.now }
{
    let [first, behind @ ..] = characters else {
        return None;
    };
    let [second, ..] = behind else {
        return of_one(*first);
    };
    of_two(*first, *second)
}
