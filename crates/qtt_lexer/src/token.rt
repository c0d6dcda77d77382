//! One token of a text.

ghost use Rattle.std.specs.Prelude.{◌≡◌, IfOk};

use crate::bytes::Bytes;
use qtt_base::{MemoryError, Name, Span};

/// The form of a token, with the value of a name, a number or a text.
#[derive(Debug, Drop)]
pub enum TokenKind {
    /// `module`
    Module,
    /// `import`
    Import,
    /// `data`
    Data,
    /// `where`
    Where,
    /// `do`
    Do,
    /// `let`
    Let,
    /// `in`
    In,
    /// `partial`
    Partial,
    /// `the`
    The,
    /// `Type`
    Type,
    /// Any name that is no keyword and not `_`: `is_simple` and `is_big` tell names apart.
    Name(Name),
    /// `_`
    Wildcard,
    /// A number. Leading zeros and `-0` leave no trace in the value.
    Number(i64),
    /// The value of a text, in UTF-8, in which each escape is one byte.
    Text(Bytes),
    /// A hole, with its name, which has one part.
    Hole(Name),
    /// `(`
    LeftParen,
    /// `)`
    RightParen,
    /// `.(`
    DotParen,
    /// `->`
    Arrow,
    /// `<-`
    LeftArrow,
    /// `=>`
    FatArrow,
    /// `:`
    Colon,
    /// `=`
    Equals,
    /// `;`
    Semicolon,
    /// `\`
    Backslash,
    /// `{`
    LeftBrace,
    /// `}`
    RightBrace,
    /// The end of the text, behind its last character.
    End,
}

/// A token: its form, its place, and its bytes as they stand in the module.
#[derive(Debug, Drop)]
pub struct Token {
    pub kind: TokenKind,
    pub span: Span,
    pub text: Bytes,
}

impl TokenKind {
    pub fn copy(&self) -> Result<TokenKind, MemoryError>
        ensures { IfOk result (λ kind. kind ≡ self.now) }
    {
        Ok(match self {
            TokenKind::Module => TokenKind::Module,
            TokenKind::Import => TokenKind::Import,
            TokenKind::Data => TokenKind::Data,
            TokenKind::Where => TokenKind::Where,
            TokenKind::Do => TokenKind::Do,
            TokenKind::Let => TokenKind::Let,
            TokenKind::In => TokenKind::In,
            TokenKind::Partial => TokenKind::Partial,
            TokenKind::The => TokenKind::The,
            TokenKind::Type => TokenKind::Type,
            TokenKind::Name(name) => TokenKind::Name(name.copy()?),
            TokenKind::Wildcard => TokenKind::Wildcard,
            TokenKind::Number(number) => TokenKind::Number(*number),
            TokenKind::Text(value) => TokenKind::Text(value.copy()?),
            TokenKind::Hole(name) => TokenKind::Hole(name.copy()?),
            TokenKind::LeftParen => TokenKind::LeftParen,
            TokenKind::RightParen => TokenKind::RightParen,
            TokenKind::DotParen => TokenKind::DotParen,
            TokenKind::Arrow => TokenKind::Arrow,
            TokenKind::LeftArrow => TokenKind::LeftArrow,
            TokenKind::FatArrow => TokenKind::FatArrow,
            TokenKind::Colon => TokenKind::Colon,
            TokenKind::Equals => TokenKind::Equals,
            TokenKind::Semicolon => TokenKind::Semicolon,
            TokenKind::Backslash => TokenKind::Backslash,
            TokenKind::LeftBrace => TokenKind::LeftBrace,
            TokenKind::RightBrace => TokenKind::RightBrace,
            TokenKind::End => TokenKind::End,
        })
    }
}

impl Token {
    pub fn copy(&self) -> Result<Token, MemoryError>
        ensures { IfOk result (λ token. token ≡ self.now) }
    {
        Ok(Token {
            kind: self.kind.copy()?,
            span: self.span,
            text: self.text.copy()?,
        })
    }
}
