//! What a token is for the layout.

ghost use Rattle.std.specs.Prelude.{◌≡◌};
ghost use Rattle.qtt_layout.specs.Rules.{role_of};

use qtt_lexer::TokenKind;

/// What a token is for the layout.
#[derive(Clone, Copy, Debug, PartialEq, Eq)]
pub enum Role {
    /// `where` or `do`, behind which a block opens.
    Opener,
    /// `(` or `.(`
    LeftBracket,
    /// `)`
    RightBracket,
    /// `;`
    Semicolon,
    End,
    Plain,
}

/// The role of a kind of token.
pub fn role_of(kind: &TokenKind) -> Role
    ensures { result ≡ role_of kind.now }
{
    match kind {
        TokenKind::Where | TokenKind::Do => Role::Opener,
        TokenKind::LeftParen | TokenKind::DotParen => Role::LeftBracket,
        TokenKind::RightParen => Role::RightBracket,
        TokenKind::Semicolon => Role::Semicolon,
        TokenKind::End => Role::End,
        _ => Role::Plain,
    }
}
