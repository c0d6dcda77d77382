//! Numbers at the front of characters.

ghost use Rattle.std.specs.Prelude.{◌≡◌, ◌-◌, ◌<◌, ◌≤◌, ◌^◌, IsTrue, min, pos, neg_ℤ, length};
ghost use Rattle.std.specs.List.{prefix_len, AllPass};
ghost use Rattle.std.specs.Char.{is_ascii_digit};
ghost use Rattle.qtt_lexer.specs.Piece.{decimal, number_of, number_at};

use crate::piece::{Cause, Piece};
use crate::token::TokenKind;

/// The greatest number that may stand behind a `-`: 2 ^ 63.
const GREATEST_NEGATED: u64 = 1 << 63;

fn digits_length(characters: &[char]) -> usize
    ensures value { result ≡ prefix_len is_ascii_digit characters.now }
    ensures within { result ≤ length characters.now }
{
    for (i, character) in characters.iter().enumerate() {
        if !character.is_ascii_digit() {
            return i;
        }
    }
    characters.len()
}

fn digit_value(digit: char) -> u64
    requires { IsTrue (is_ascii_digit digit) }
    ensures { result ≡ digit - 48 }
{
    u64::from(u32::from(digit) - 48)
}

/// The number that digits spell, or 2 ^ 64 - 1 where it is greater.
fn decimal(digits: &[char]) -> u64
    requires { AllPass is_ascii_digit digits.now }
    ensures { result ≡ min (decimal digits.now) (2 ^ 64 - 1) }
{
    let mut value: u64 = 0;
    for digit in digits {
        value = value.saturating_mul(10).saturating_add(digit_value(*digit));
    }
    value
}

fn negated(value: u64) -> i64
    requires { value ≤ 2 ^ 63 }
    ensures { result ≡ neg_ℤ (pos value) }
{
    if value == GREATEST_NEGATED {
        i64::MIN
    } else {
        -(value as i64)
    }
}

fn number_of(negative: bool, len: usize, value: u64) -> Piece
    requires { len < 2 ^ 32 }
    ensures { result ≡ number_of negative len value }
{
    if negative {
        if value <= GREATEST_NEGATED {
            Piece::Token(TokenKind::Number(negated(value)), len + 1)
        } else {
            Piece::Wrong(Cause::NumberTooWide, 0, len + 1)
        }
    } else if value < GREATEST_NEGATED {
        Piece::Token(TokenKind::Number(value as i64), len)
    } else {
        Piece::Wrong(Cause::NumberTooWide, 0, len)
    }
}

/// The number that begins with these digits, or with a `-` before them.
pub fn number_at(negative: bool, characters: &[char]) -> Piece
    requires { length characters.now < 2 ^ 32 }
    ensures { result ≡ number_at negative characters.now }
{
    let len = digits_length(characters);
    number_of(negative, len, decimal(&characters[..len]))
}
