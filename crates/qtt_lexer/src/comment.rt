//! Comments behind their opening.

ghost use Rattle.std.specs.Prelude.{◌≡◌, ◌+◌, ◌≤◌, ◌<◌, ◌^◌, not, ◌==◌, length, IfSome};
ghost use Rattle.std.specs.List.{prefix_len};
ghost use Rattle.qtt_lexer.specs.Piece.{opens, closes, comment_tail, comment_of, line_of};
ghost use Rattle.qtt_lexer.specs.Comment.{IsStep};

use crate::piece::{Cause, Piece};

/// What the first characters of a comment do, and what is behind them.
#[derive(Clone, Copy, Debug)]
pub enum CommentStep<'a> {
    Opens(&'a [char]),
    Closes(&'a [char]),
    Skips(&'a [char]),
    Ends,
}

fn opens(first: char, second: char) -> bool
    ensures { result ≡ opens first second }
{
    first == '{' && second == '-'
}

fn closes(first: char, second: char) -> bool
    ensures { result ≡ closes first second }
{
    first == '-' && second == '}'
}

fn step(characters: &[char]) -> CommentStep<'_>
    ensures { IsStep characters.now result }
{
    let [first, behind @ ..] = characters else {
        return CommentStep::Ends;
    };
    let [second, rest @ ..] = behind else {
        return CommentStep::Ends;
    };
    if opens(*first, *second) {
        return CommentStep::Opens(rest);
    }
    if closes(*first, *second) {
        return CommentStep::Closes(rest);
    }
    CommentStep::Skips(behind)
}

/// How many characters go on up to the end of a comment, behind its opening.
pub fn comment_tail(characters: &[char]) -> Option<usize>
    ensures value { result ≡ comment_tail 0 characters.now }
    ensures within { IfSome result (λ n. n ≤ length characters.now) }
{
    let mut depth: usize = 0;
    let mut rest = characters;
    'steps: loop {
        match step(rest) {
            CommentStep::Opens(behind) => {
                depth += 1;
                rest = behind;
            }
            CommentStep::Closes(behind) => {
                if depth == 0 {
                    return Some(characters.len() - behind.len());
                }
                depth -= 1;
                rest = behind;
            }
            CommentStep::Skips(behind) => rest = behind,
            CommentStep::Ends => return None,
        }
    }
}

/// The comment that begins with `{-` before these characters, where so many are left in all.
pub fn comment_at(broken: bool, all: usize, characters: &[char]) -> Piece
    requires { length characters.now < 2 ^ 32 }
    ensures { result ≡ comment_of broken all (comment_tail 0 characters.now) }
{
    match comment_tail(characters) {
        Some(len) => Piece::Gap(len + 2),
        None if broken => Piece::Wrong(Cause::NotUtf8, all, 0),
        None => Piece::Wrong(Cause::OpenComment, 0, 2),
    }
}

fn line_length(characters: &[char]) -> usize
    ensures value { result ≡ prefix_len (λ c. not (c == 10)) characters.now }
    ensures within { result ≤ length characters.now }
{
    for (i, character) in characters.iter().enumerate() {
        if *character == '\n' {
            return i;
        }
    }
    characters.len()
}

/// The comment to the end of the line that begins with a `-` before these characters.
pub fn line_at(characters: &[char]) -> Piece
    requires { length characters.now < 2 ^ 32 }
    ensures { result ≡ line_of characters.now }
{
    Piece::Gap(line_length(characters) + 1)
}
