//! The patterns of a clause that is missing.

ghost use Rattle.std.specs.Prelude.{map, OnOk};
ghost use Rattle.qtt_syntax.specs.Tree.{shapes};
ghost use Rattle.qtt_syntax.specs.View.{shape_of};
ghost use Rattle.qtt_diag.specs.Patterns.{pattern_text, patterns_text};
ghost use Rattle.qtt_diag.specs.Writing.{Adds};

use crate::parts::put;
use qtt_base::MemoryError;
use qtt_core_print::last_part;
use qtt_syntax::Pattern;

#[cycle(patterns)]
fn put_pattern(out: &mut Vec<u8>, shape: &Pattern) -> Result<(), MemoryError>
    ensures { OnOk result (Adds out.old out.new (pattern_text (shape_of shape.now))) }
{
    match shape {
        Pattern::Constructor {
            head,
            arguments,
            ..
        } => {
            let name = last_part(head.path.as_str().as_bytes());
            if arguments.is_empty() {
                return put(out, name);
            }
            put(out, b"(")?;
            put(out, name)?;
            put_patterns(out, arguments)?;
            put(out, b")")
        }
        Pattern::Variable { .. } | Pattern::Wildcard { .. } | Pattern::Dot { .. } => put(out, b"_"),
    }
}

/// Patterns, each behind a blank.
#[cycle(patterns)]
pub fn put_patterns(out: &mut Vec<u8>, list: &[Pattern]) -> Result<(), MemoryError>
    ensures { OnOk result (Adds out.old out.new
        (patterns_text (shapes (map shape_of list.now)))) }
{
    for shape in list {
        put(out, b" ")?;
        put_pattern(out, shape)?;
    }
    Ok(())
}
