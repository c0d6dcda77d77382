//! The text of patterns.

ghost use Rattle.std.specs.Prelude.{map, OnOk};
ghost use Rattle.qtt_syntax.specs.Tree.{shapes};
ghost use Rattle.qtt_syntax.specs.View.{shape_of};
ghost use Rattle.qtt_syntax.specs.Printing.{pattern, patterns};
ghost use Rattle.qtt_syntax.specs.Writing.{Adds};

use crate::pattern::Pattern;
use crate::printer::expression::put_expr;
use crate::printer::words::{put, put_name};
use qtt_base::MemoryError;

#[cycle(patterns)]
fn put_pattern(out: &mut Vec<u8>, shape: &Pattern) -> Result<(), MemoryError>
    ensures { OnOk result (Adds out.old out.new (pattern (shape_of shape.now))) }
{
    match shape {
        Pattern::Variable { name, .. } => put_name(out, name),
        Pattern::Wildcard { .. } => put(out, b"_"),
        Pattern::Constructor {
            head,
            arguments,
            ..
        } => {
            if arguments.is_empty() {
                return put_name(out, &head.path);
            }
            put(out, b"(")?;
            put_name(out, &head.path)?;
            put_patterns(out, arguments)?;
            put(out, b")")
        }
        Pattern::Dot { value, .. } => {
            put(out, b".(")?;
            put_expr(out, 0, value)?;
            put(out, b")")
        }
    }
}

/// Patterns, each behind a blank.
#[cycle(patterns)]
pub fn put_patterns(out: &mut Vec<u8>, list: &[Pattern]) -> Result<(), MemoryError>
    ensures { OnOk result (Adds out.old out.new (patterns (shapes (map shape_of list.now)))) }
{
    for shape in list {
        put(out, b" ")?;
        put_pattern(out, shape)?;
    }
    Ok(())
}
