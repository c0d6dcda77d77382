//! Patterns in the arena: how they are read, and how they are written.

ghost use Rattle.std.specs.Prelude.{◌≡◌, ◌++◌, ◌∷◌, map, decimal, IfOk, OnOk};
ghost use Rattle.qtt_syntax.specs.Tree.{shapes};
ghost use Rattle.qtt_syntax.specs.View.{shape_of};
ghost use Rattle.qtt_implicit.specs.Patterns.{shape_list, marks as marks_in, all_marks, new_variables};
ghost use Rattle.qtt_implicit.specs.Shaping.{shape_tree, shape_row};

use super::reading::{read, used};
use super::trees::{Node, Used, placed};
use super::writing::{written, written_name};
use crate::forgetting::numbers::more;
use bumpalo::Bump;
use qtt_base::{MemoryError, Name, Span};
use qtt_syntax::{Mark, Pattern};
use std::alloc::Global;

/// A pattern in the arena.
#[cycle(shape)]
#[derive(Clone, Copy)]
pub(crate) enum Shape<'a> {
    Variable {
        mark: Mark,
        name: &'a Name,
        span: Span,
    },
    Wildcard {
        mark: Mark,
        span: Span,
    },
    Constructor {
        mark: Mark,
        head: Used<'a>,
        fields: &'a Shapes<'a>,
        span: Span,
    },
    Dot {
        mark: Mark,
        value: &'a Node<'a>,
        span: Span,
    },
}

/// Patterns from left to right.
#[cycle(shape)]
#[derive(Clone, Copy)]
pub(crate) enum Shapes<'a> {
    End,
    More(Shape<'a>, &'a Shapes<'a>),
}

#[cycle(read_shapes)]
#[tactic(auto, using(crate::proofs::ShapeParts::parts))]
fn read_shape<'a>(arena: &'a Bump, source: &'a Pattern) -> Result<Shape<'a>, MemoryError>
    ensures { IfOk result (λ shape. shape_tree shape ≡ shape_of source.now) }
{
    match source {
        Pattern::Variable { mark, name, span } => Ok(Shape::Variable {
            mark: *mark,
            name,
            span: *span,
        }),
        Pattern::Wildcard { mark, span } => Ok(Shape::Wildcard {
            mark: *mark,
            span: *span,
        }),
        Pattern::Constructor {
            mark,
            head,
            arguments,
            span,
        } => Ok(Shape::Constructor {
            mark: *mark,
            head: used(head),
            fields: read_shapes(arena, arguments)?,
            span: *span,
        }),
        Pattern::Dot { mark, value, span } => Ok(Shape::Dot {
            mark: *mark,
            value: read(arena, value)?,
            span: *span,
        }),
    }
}

/// Patterns, placed in the arena.
#[cycle(read_shapes)]
#[tactic(auto, using(crate::proofs::ShapeParts::parts))]
pub(crate) fn read_shapes<'a>(
    arena: &'a Bump,
    source: &'a [Pattern],
) -> Result<&'a Shapes<'a>, MemoryError>
    ensures { IfOk result (λ row. shape_row row.now ≡ shapes (map shape_of source.now)) }
{
    let mut row: &'a Shapes<'a> = placed(arena, Shapes::End)?;
    for index in (0..source.len()).rev() {
        let first = read_shape(arena, &source[index])?;
        row = placed(arena, Shapes::More(first, row))?;
    }
    Ok(row)
}

#[cycle(write_shapes)]
#[tactic(auto, using(crate::proofs::ShapeParts::parts))]
fn written_shape(alloc: Global, source: &Shape<'_>) -> Result<Pattern, MemoryError>
    ensures { IfOk result (λ pattern. shape_of pattern ≡ shape_tree source.now) }
{
    match source {
        Shape::Variable { mark, name, span } => Ok(Pattern::Variable {
            mark: *mark,
            name: name.copy()?,
            span: *span,
        }),
        Shape::Wildcard { mark, span } => Ok(Pattern::Wildcard {
            mark: *mark,
            span: *span,
        }),
        Shape::Constructor {
            mark,
            head,
            fields,
            span,
        } => {
            let arguments = with_shapes(fields, alloc, Vec::new(alloc))?;
            Ok(Pattern::Constructor {
                mark: *mark,
                head: written_name(*head)?,
                arguments,
                span: *span,
            })
        }
        Shape::Dot { mark, value, span } => Ok(Pattern::Dot {
            mark: *mark,
            value: written(alloc, value)?,
            span: *span,
        }),
    }
}

/// Patterns behind others.
#[cycle(write_shapes)]
#[tactic(auto, using(crate::proofs::ShapeParts::parts))]
pub(crate) fn with_shapes(
    source: &Shapes<'_>,
    alloc: Global,
    mut done: Vec<Pattern>,
) -> Result<Vec<Pattern>, MemoryError>
    ensures { IfOk result (λ row.
        map shape_of row.items ≡ map shape_of done.items ++ shape_list (shape_row source.now)) }
{
    match source {
        Shapes::End => Ok(done),
        Shapes::More(first, rest) => {
            done.push(written_shape(alloc, first)?)?;
            with_shapes(rest, alloc, done)
        }
    }
}

/// Puts how the variables of a pattern came into the clause behind others.
#[cycle(marks)]
fn push_marks(source: &Shape<'_>, marks: &mut Vec<Mark>) -> Result<(), MemoryError>
    ensures { OnOk result (marks.new.items ≡ marks.old.items ++ marks_in (shape_tree source.now)) }
{
    match source {
        Shape::Variable { mark, .. } => {
            marks.push(*mark)?;
            Ok(())
        }
        Shape::Wildcard { .. } | Shape::Dot { .. } => Ok(()),
        Shape::Constructor { fields, .. } => push_all_marks(fields, marks),
    }
}

/// Puts how the variables of patterns came into the clause behind others.
#[cycle(marks)]
pub(crate) fn push_all_marks(source: &Shapes<'_>, marks: &mut Vec<Mark>) -> Result<(), MemoryError>
    ensures { OnOk result (marks.new.items ≡ marks.old.items ++ all_marks (shape_row source.now)) }
{
    match source {
        Shapes::End => Ok(()),
        Shapes::More(first, rest) => {
            push_marks(first, marks)?;
            push_all_marks(rest, marks)
        }
    }
}

/// Variables that are put in front of patterns at a place: so many, numbered from this number
/// on. No text can write their names.
pub(crate) fn with_variables<'a>(
    alloc: Global,
    arena: &'a Bump,
    count: u32,
    first: u32,
    span: Span,
    rest: &'a Shapes<'a>,
) -> Result<&'a Shapes<'a>, MemoryError>
    ensures { IfOk result (λ row.
        shape_row row.now ≡ new_variables count first span (shape_row rest.now)) }
{
    match count.checked_sub(1) {
        None => Ok(rest),
        Some(count) => {
            let name = inserted_name(alloc, first)?;
            let rest = with_variables(alloc, arena, count, more(first, 1)?, span, rest)?;
            let variable = Shape::Variable {
                mark: Mark::Inserted,
                name: placed(arena, name)?,
                span,
            };
            Ok(placed(arena, Shapes::More(variable, rest))?)
        }
    }
}

/// The name of an inserted variable: a quote, and its number in the clause.
fn inserted_name(alloc: Global, number: u32) -> Result<Name, MemoryError>
    ensures { IfOk result (λ name. name ≡ 39 ∷ decimal number) }
{
    let text = format!(in alloc; "'{number}")?;
    match Name::new(alloc, text.as_str()) {
        Ok(name) => Ok(name),
        Err(_) => Err(MemoryError),
    }
}
