//! Tokens with the marks of their blocks.

use qtt_base::Span;
use qtt_lexer::Token;

/// A mark of the layout, or a token. `End` and `;` are not among the tokens.
#[derive(Debug, Drop)]
pub enum Laid {
    /// A block opens before the token at this place.
    Open(Span),
    /// The next item of the block begins.
    Next(Span),
    /// The newest block closes.
    Close(Span),
    Tok(Token),
}
