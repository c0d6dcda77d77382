//! Patterns of implicit arguments, put in front of a clause's patterns and of a constructor's.

ghost use Rattle.std.specs.Prelude.{◌≡◌, option_map, IfOk};
ghost use Rattle.qtt_implicit.specs.KnownItems.{known_of};
ghost use Rattle.qtt_implicit.specs.Patterns.{all_with_slots, braces_of, clause_shapes as shapes_of_clause, shape_list, signature_of as sig_of_target, with_slots};
ghost use Rattle.qtt_implicit.specs.Shaping.{numbered_shape, numbered_shapes, shape_row, shape_tree};
ghost use Rattle.qtt_implicit.specs.Signatures.{signature_of};

use super::known::Known;
use super::shapes::{Shape, Shapes, with_variables};
use super::signature::Signature;
use super::trees::{deeper, placed};
use bumpalo::Bump;
use qtt_base::{MemoryError, Span};
use qtt_syntax::Target;
use std::alloc::Global;

/// A pattern, and the number of the variables that are put in up to its end.
#[derive(Clone, Copy)]
pub(crate) struct NumberedShape<'a> {
    pub shape: Shape<'a>,
    pub next: u32,
}

/// Patterns, and the number of the variables that are put in up to their end.
#[derive(Clone, Copy)]
pub(crate) struct NumberedShapes<'a> {
    pub shapes: &'a Shapes<'a>,
    pub next: u32,
}

impl<'a> Known<'a> {
    /// The signature of what a name stands for.
    pub(crate) fn signature_at(&self, target: Target) -> Option<Signature<'a>>
        ensures { option_map signature_of result ≡ sig_of_target (known_of self.now) target }
    {
        match target {
            Target::Global(id) => self.signature(id),
            Target::Local(_) | Target::Unknown => None,
        }
    }

    /// How many binders in braces what a name stands for has.
    fn braces_at(&self, target: Target) -> u32
        ensures { result ≡ braces_of (sig_of_target (known_of self.now) target) }
    {
        match self.signature_at(target) {
            None => 0,
            Some(sig) => sig.braces,
        }
    }

    /// A pattern, where so many variables are put in before.
    #[cycle(slotted)]
    fn slotted(
        &self,
        source: Shape<'a>,
        alloc: Global,
        arena: &'a Bump,
        first: u32,
    ) -> Result<NumberedShape<'a>, MemoryError>
        ensures { IfOk result (λ r. numbered_shape r ≡ with_slots (known_of self.now)
            (shape_tree source.entry) first) }
    {
        match source {
            Shape::Variable { .. } | Shape::Wildcard { .. } | Shape::Dot { .. } => {
                Ok(NumberedShape {
                    shape: source,
                    next: first,
                })
            }
            Shape::Constructor {
                mark,
                head,
                fields,
                span,
            } => {
                let braces = self.braces_at(head.target);
                let inner = self.all_slotted(fields, alloc, arena, deeper(first, braces)?)?;
                let fields = with_variables(alloc, arena, braces, first, head.span, inner.shapes)?;
                Ok(NumberedShape {
                    shape: Shape::Constructor {
                        mark,
                        head,
                        fields,
                        span,
                    },
                    next: inner.next,
                })
            }
        }
    }

    /// Patterns, where so many variables are put in before.
    #[cycle(slotted)]
    fn all_slotted(
        &self,
        source: &'a Shapes<'a>,
        alloc: Global,
        arena: &'a Bump,
        first: u32,
    ) -> Result<NumberedShapes<'a>, MemoryError>
        ensures { IfOk result (λ r. numbered_shapes r ≡ all_with_slots (known_of self.now)
            (shape_row source.now) first) }
    {
        match *source {
            Shapes::End => Ok(NumberedShapes {
                shapes: source,
                next: first,
            }),
            Shapes::More(shape, others) => {
                let shape = self.slotted(shape, alloc, arena, first)?;
                let others = self.all_slotted(others, alloc, arena, shape.next)?;
                Ok(NumberedShapes {
                    shapes: placed(arena, Shapes::More(shape.shape, others.shapes))?,
                    next: others.next,
                })
            }
        }
    }

    /// The patterns of a clause of a name with so many binders in braces, at the clause's place.
    pub(crate) fn clause_shapes(
        &self,
        source: &'a Shapes<'a>,
        alloc: Global,
        arena: &'a Bump,
        braces: u32,
        span: Span,
    ) -> Result<&'a Shapes<'a>, MemoryError>
        ensures { IfOk result (λ r. shape_row r.now ≡ shapes_of_clause (known_of self.now) braces
            span
            (shape_list (shape_row source.now))) }
    {
        let inner = self.all_slotted(source, alloc, arena, braces)?;
        with_variables(alloc, arena, braces, 0, span, inner.shapes)
    }
}
