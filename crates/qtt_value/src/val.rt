//! Values and the lists of their parts.

ghost use Rattle.std.specs.Prelude.{◌≡◌, IfOk};

use bumpalo::Bump;
use qtt_base::MemoryError;
use qtt_prims::ActKind;

/// A value, copied freely. Its parts and its text stay where they are as long as the arena.
#[derive(Clone, Copy)]
pub enum Val<'a> {
    Int(i64),
    Text(&'a str),
    /// A constructor: its tag and its fields.
    Con(u32, &'a [Val<'a>]),
    /// A closure: its block and what it captured.
    Clo(u32, &'a [Val<'a>]),
    /// An action and its arguments.
    Act(ActKind, &'a [Val<'a>]),
    Tape(u32),
    /// A type.
    Ty,
}

/// Puts parts into the arena.
pub fn place<'a>(arena: &'a Bump, parts: &[Val<'a>]) -> Result<&'a [Val<'a>], MemoryError>
    ensures { IfOk result (λ placed. placed.now ≡ parts.now) }
{
    Ok(arena.try_alloc_slice_copy(parts)?)
}
