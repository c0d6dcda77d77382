//! The text types of local names.

ghost use Rattle.std.specs.Prelude.{◌≡◌, IfOk};
ghost use Rattle.qtt_implicit.specs.Moving.{shifted};
ghost use Rattle.qtt_implicit.specs.TextTypes.{local_types, type_tree};
ghost use Rattle.qtt_implicit.specs.Walk.{type_at as type_among};

use crate::filling::parts::Locals;
use crate::filling::text_type::TextType;
use crate::filling::trees::inside;
use bumpalo::Bump;
use qtt_base::MemoryError;

/// The text type of a local name, behind so many binders more.
fn type_behind<'a>(
    locals: &'a Locals<'a>,
    arena: &'a Bump,
    index: u32,
    moved: u32,
) -> Result<TextType<'a>, MemoryError>
    ensures { IfOk result (λ t. type_tree t ≡ shifted moved
        (type_among (local_types locals.now) index)) }
{
    match locals {
        Locals::End => TextType::unknown(arena),
        Locals::Behind { ty, older } => {
            let moved = inside(moved)?;
            match index.checked_sub(1) {
                None => ty.moved(moved),
                Some(index) => type_behind(older, arena, index, moved),
            }
        }
        Locals::Beside { ty, older } => match index.checked_sub(1) {
            None => ty.moved(moved),
            Some(index) => type_behind(older, arena, index, moved),
        },
        Locals::Unmet { count, older } => match index.checked_sub(*count) {
            None => TextType::unknown(arena),
            Some(index) => type_behind(older, arena, index, moved),
        },
    }
}

/// The text type of a local name, where it is used.
pub fn type_at<'a>(
    locals: &'a Locals<'a>,
    arena: &'a Bump,
    index: u32,
) -> Result<TextType<'a>, MemoryError>
    ensures { IfOk result (λ t. type_tree t ≡ type_among (local_types locals.now) index) }
{
    type_behind(locals, arena, index, 0)
}
