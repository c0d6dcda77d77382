//! What is made of the walked parts of an expression, and the local names behind a binder.

ghost use Rattle.std.specs.Prelude.{◌≡◌, IfOk};
ghost use Rattle.qtt_syntax.specs.Tree.Tree.{the as the_tree};
ghost use Rattle.qtt_implicit.specs.Moving.{unknown};
ghost use Rattle.qtt_implicit.specs.Nodes.{annotation_tree, binder_row, node_tree};
ghost use Rattle.qtt_implicit.specs.TextTypes.{given_list, local_types, type_tree, walked_of};
ghost use Rattle.qtt_implicit.specs.Walking.{then_of};
ghost use Rattle.qtt_implicit.specs.Walk.{behind as types_behind, let_type, plainly_applied, result_type, walked, with_types};

use crate::filling::applying::{application, given_row};
use crate::filling::givens::codomains;
use crate::filling::parts::{Givens, Locals, Walked};
use crate::filling::text_type::TextType;
use crate::filling::trees::{Annotation, Binders, Node, placed};
use bumpalo::Bump;
use qtt_base::{MemoryError, Span};

/// Binders, and the local names behind them.
#[derive(Clone, Copy)]
pub(crate) struct BindersThen<'a> {
    pub binders: &'a Binders<'a>,
    pub locals: &'a Locals<'a>,
}

impl<'a> BindersThen<'a> {
    /// Other binders with the same local names behind them.
    pub fn with(self, arena: &'a Bump, binders: Binders<'a>) -> Result<BindersThen<'a>, MemoryError>
        ensures { IfOk result (λ b. then_of b ≡ with_types (binder_row binders.entry)
            (local_types self.entry.locals.now)) }
    {
        Ok(BindersThen {
            binders: placed(arena, binders)?,
            locals: self.locals,
        })
    }
}

/// An expression of which no text type is known.
pub(crate) fn unjudged<'a>(arena: &'a Bump, node: Node<'a>) -> Result<Walked<'a>, MemoryError>
    ensures { IfOk result (λ w. walked_of w ≡ walked (node_tree node.entry) unknown) }
{
    Ok(Walked {
        tree: placed(arena, node)?,
        ty: TextType::unknown(arena)?,
    })
}

/// An expression with its written type.
pub(crate) fn the<'a>(
    arena: &'a Bump,
    ty: Walked<'a>,
    value: Walked<'a>,
    span: Span,
) -> Result<Walked<'a>, MemoryError>
    ensures { IfOk result (λ w. walked_of w ≡ walked (the_tree (walked_of ty.entry).tree
        (walked_of value.entry).tree span) (walked_of ty.entry).tree) }
{
    let node = Node::The {
        ty: ty.tree,
        value: value.tree,
        span,
    };
    Ok(Walked {
        tree: placed(arena, node)?,
        ty: TextType::here(arena, ty.tree)?,
    })
}

/// An application of what has no signature.
pub(crate) fn plainly<'a>(
    arena: &'a Bump,
    function: Walked<'a>,
    givens: &'a Givens<'a>,
    span: Span,
) -> Result<Walked<'a>, MemoryError>
    ensures { IfOk result (λ w. walked_of w ≡ plainly_applied (walked_of function.entry).tree
        (walked_of function.entry).type (given_list givens.now) span) }
{
    let row = given_row(givens, arena)?;
    Ok(Walked {
        tree: application(function.tree, arena, row, span)?,
        ty: codomains(givens, arena, function.ty)?,
    })
}

/// Local names behind a binder of this type.
pub(crate) fn behind<'a>(
    arena: &'a Bump,
    ty: TextType<'a>,
    older: &'a Locals<'a>,
) -> Result<&'a Locals<'a>, MemoryError>
    ensures { IfOk result (λ r. local_types r.now ≡ types_behind (type_tree ty.entry)
        (local_types older.now)) }
{
    placed(arena, Locals::Behind { ty, older })
}

/// Local names behind a binder of which nothing is known.
pub(crate) fn behind_unknown<'a>(
    arena: &'a Bump,
    older: &'a Locals<'a>,
) -> Result<&'a Locals<'a>, MemoryError>
    ensures { IfOk result (λ r. local_types r.now ≡ types_behind unknown
        (local_types older.now)) }
{
    behind(arena, TextType::unknown(arena)?, older)
}

/// Local names behind a binder whose type this expression is.
pub(crate) fn behind_tree<'a>(
    arena: &'a Bump,
    tree: &'a Node<'a>,
    older: &'a Locals<'a>,
) -> Result<&'a Locals<'a>, MemoryError>
    ensures { IfOk result (λ r. local_types r.now ≡ types_behind (node_tree tree.now)
        (local_types older.now)) }
{
    behind(arena, TextType::here(arena, tree)?, older)
}

/// Local names behind a `let`.
pub(crate) fn behind_let<'a>(
    arena: &'a Bump,
    written: Annotation<'a>,
    value: TextType<'a>,
    older: &'a Locals<'a>,
) -> Result<&'a Locals<'a>, MemoryError>
    ensures { IfOk result (λ r. local_types r.now ≡ types_behind
        (let_type (annotation_tree written.entry) (type_tree value.entry))
        (local_types older.now)) }
{
    behind(arena, TextType::of_let(arena, written, value)?, older)
}

/// Local names behind what an action of this type gives.
pub(crate) fn behind_result<'a>(
    arena: &'a Bump,
    action: TextType<'a>,
    older: &'a Locals<'a>,
) -> Result<&'a Locals<'a>, MemoryError>
    ensures { IfOk result (λ r. local_types r.now ≡ types_behind
        (result_type (type_tree action.entry)) (local_types older.now)) }
{
    behind(arena, action.result_type(arena)?, older)
}
