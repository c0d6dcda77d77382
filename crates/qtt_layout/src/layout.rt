//! The blocks of tokens.

ghost use Rattle.std.specs.Prelude.{◌≡◌, true, Some, IfOk};
ghost use Rattle.qtt_lexer.specs.Lexed.{seen};
ghost use Rattle.qtt_layout.specs.Rules.{bad_indent, laid};
ghost use Rattle.qtt_layout.specs.Answer.{Gives};
ghost use Rattle.qtt_layout.specs.Laws.{tokens_in, kept, has_end, open_behind, each_next_counts};

use crate::between::Between;
use crate::errors::LayoutError;
use crate::laid::Laid;
use crate::marks::Marks;
use crate::role::{Role, role_of};
use qtt_base::Fault;
use qtt_lexer::Token;
use std::alloc::Global;

fn bad_indent(alloc: Global, token: &Token) -> Fault
    ensures { seen result ≡ bad_indent token.now }
{
    Fault {
        kind: 7,
        span: token.span,
        word: Vec::new(alloc),
        count: 0,
    }
}

fn marks_of(alloc: Global, tokens: &[Token]) -> Result<Vec<Laid>, LayoutError>
    ensures { Gives result (laid tokens.now) }
{
    let mut between = Between::new(alloc);
    let mut marks = Marks::new(alloc);
    for token in tokens {
        let role = role_of(&token.kind);
        if role == Role::End {
            between.finish(token, &mut marks)?;
            return Ok(marks.into_laid()?);
        }
        if !between.lay(role, token, &mut marks)? {
            return Err(LayoutError::Fault(bad_indent(alloc, token)));
        }
    }
    Ok(marks.into_laid()?)
}

/// The tokens with the marks of their blocks. What stands behind the first End is not read.
pub fn blocks(alloc: Global, tokens: &[Token]) -> Result<Vec<Laid>, LayoutError>
    // Exactly the tokens with the marks that count, or the first token left of the outermost
    // block.
    ensures exact { Gives result (laid tokens.now) }
    // The tokens before the end stay, without each `;`.
    ensures tokens { IfOk result (λ laid. tokens_in laid.items ≡ kept tokens.now) }
    // Where there is an End, each block that opens closes, and none closes that isn't open.
    ensures blocks { has_end tokens.now ≡ true →
        IfOk result (λ laid. open_behind 0 laid.items ≡ Some 0) }
    // No Next stands directly before another one or before a Close.
    ensures nexts { IfOk result (λ laid. each_next_counts laid.items ≡ true) }
{
    marks_of(alloc, tokens)
}
