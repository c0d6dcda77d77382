//! The name of a module in words.

ghost use Rattle.std.specs.Prelude.{◌≡◌, IfOk};
ghost use Rattle.qtt_words.specs.Asked.{module_name, named, only_name};

use qtt_base::{MemoryError, Name};
use qtt_lexer::{LexError, Token, TokenKind, lex};
use std::alloc::Global;

/// The greatest number of bytes of a word that is read.
const MAX_WORD: usize = (1 << 29) - 1;

/// The name of a module that a word is. A word of 2^29 bytes or more is want of memory.
pub fn module_name(alloc: Global, word: &str) -> Result<Option<Name>, MemoryError>
    ensures { IfOk result (λ name. name ≡ module_name word.now) }
{
    if word.len() > MAX_WORD {
        return Err(MemoryError);
    }
    match lex(alloc, word.as_bytes()) {
        Ok(tokens) => only_name(word, &tokens),
        Err(LexError::Fault(_)) => Ok(None),
        Err(LexError::Memory) => Err(MemoryError),
    }
}

/// The word, where its tokens are the name that it is, and the end.
fn only_name(word: &str, tokens: &[Token]) -> Result<Option<Name>, MemoryError>
    ensures { IfOk result (λ name. name ≡ only_name word.now tokens.now) }
{
    match tokens {
        [token, _] => named(word, &token.kind),
        _ => Ok(None),
    }
}

/// The word, where the token is the name that it is.
fn named(word: &str, kind: &TokenKind) -> Result<Option<Name>, MemoryError>
    ensures { IfOk result (λ name. name ≡ named word.now kind.now) }
{
    match kind {
        TokenKind::Name(name) if name.as_str() == word => Ok(Some(name.copy()?)),
        _ => Ok(None),
    }
}
