//! Copies of patterns.

ghost use Rattle.std.specs.Prelude.{◌≡◌, IfOk, map};
ghost use Rattle.qtt_syntax.specs.View.{shape_of};

use qtt_base::MemoryError;
use qtt_syntax::{Named, Pattern};
use std::alloc::Global;

fn copied_name(source: &Named) -> Result<Named, MemoryError>
    ensures { IfOk result (λ copy. copy ≡ source.now) }
{
    Ok(Named {
        path: source.path.copy()?,
        target: source.target,
        span: source.span,
    })
}

/// A pattern that stands for the same.
#[cycle(copied)]
#[tactic(auto, using(qtt_syntax::proofs::Rows::rows))]
fn copied(alloc: Global, source: &Pattern) -> Result<Pattern, MemoryError>
    ensures { IfOk result (λ copy. shape_of copy ≡ shape_of source.now) }
{
    match source {
        Pattern::Variable { mark, name, span } => Ok(Pattern::Variable {
            mark: *mark,
            name: name.copy()?,
            span: *span,
        }),
        Pattern::Wildcard { mark, span } => Ok(Pattern::Wildcard {
            mark: *mark,
            span: *span,
        }),
        Pattern::Constructor {
            mark,
            head,
            arguments,
            span,
        } => Ok(Pattern::Constructor {
            mark: *mark,
            head: copied_name(head)?,
            arguments: copied_all(alloc, arguments)?,
            span: *span,
        }),
        Pattern::Dot { mark, value, span } => Ok(Pattern::Dot {
            mark: *mark,
            value: value.copy(alloc)?,
            span: *span,
        }),
    }
}

/// Patterns that stand for the same, in order.
#[cycle(copied)]
pub fn copied_all(alloc: Global, source: &[Pattern]) -> Result<Vec<Pattern>, MemoryError>
    ensures { IfOk result (λ copies. map shape_of copies.items ≡ map shape_of source.now) }
{
    let mut copies = Vec::with_capacity(alloc, source.len())?;
    for pattern in source {
        copies.push(copied(alloc, pattern)?)?;
    }
    Ok(copies)
}
