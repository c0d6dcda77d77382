//! Trees that are read into an arena.

ghost use Rattle.std.specs.Prelude.{◌≡◌, map, IfOk};
ghost use Rattle.qtt_syntax.specs.Tree.{arguments, binders, statements};
ghost use Rattle.qtt_syntax.specs.Tree.Arguments.{argument_and};
ghost use Rattle.qtt_syntax.specs.Tree.Binders.{binder_and};
ghost use Rattle.qtt_syntax.specs.Tree.Statements.{statement_and};
ghost use Rattle.qtt_syntax.specs.View.{tree_of, written_type, argument_of, binder_of, statement_of};
ghost use Rattle.qtt_implicit.specs.Nodes.{used_name, bound_name, node_tree, annotation_tree, argument_row, binder_row, statement_row};

use super::trees::{Annotation, Arguments, Binders, Bound, Node, Statements, Used, placed};
use bumpalo::Bump;
use qtt_base::MemoryError;
use qtt_syntax::{Argument, Binder, Expr, Local, Mark, Named, Statement};

pub(crate) fn used(named: &Named) -> Used<'_>
    ensures { used_name result ≡ named.now }
{
    Used {
        path: &named.path,
        target: named.target,
        span: named.span,
    }
}

fn bound(local: &Local) -> Bound<'_>
    ensures { bound_name result ≡ local.now }
{
    Bound {
        name: &local.name,
        span: local.span,
    }
}

/// An expression as a tree in the arena.
#[cycle(read)]
#[tactic(auto, using(crate::proofs::ReadParts::parts))]
pub(crate) fn read<'a>(arena: &'a Bump, source: &'a Expr) -> Result<&'a Node<'a>, MemoryError>
    ensures { IfOk result (λ node. node_tree node.now ≡ tree_of source.now) }
{
    match source {
        Expr::Name(named) => placed(arena, Node::Name(used(named))),
        Expr::Number { value, span } => placed(
            arena,
            Node::Number {
                value: *value,
                span: *span,
            },
        ),
        Expr::Text { value, span } => placed(
            arena,
            Node::Text {
                value: value.as_slice(),
                span: *span,
            },
        ),
        Expr::Type {
            level,
            level_span,
            span,
        } => placed(
            arena,
            Node::Type {
                level: *level,
                level_span: *level_span,
                span: *span,
            },
        ),
        Expr::Hole { name, span } => placed(arena, Node::Hole { name, span: *span }),
        Expr::The { ty, value, span } => {
            let node = Node::The {
                ty: read(arena, ty)?,
                value: read(arena, value)?,
                span: *span,
            };
            placed(arena, node)
        }
        Expr::Apply {
            function,
            arguments,
            span,
        } => {
            let node = Node::Apply {
                function: read(arena, function)?,
                arguments: read_arguments(arena, arguments)?,
                span: *span,
            };
            Ok(placed(arena, node)?)
        }
        Expr::Pi {
            mark,
            mult,
            name,
            domain,
            codomain,
            span,
        } => {
            let node = Node::Pi {
                mark: *mark,
                mult: *mult,
                name,
                domain: read(arena, domain)?,
                codomain: read(arena, codomain)?,
                span: *span,
            };
            placed(arena, node)
        }
        Expr::Lambda {
            binders,
            body,
            span,
        } => {
            let node = Node::Lambda {
                binders: read_binders(arena, binders)?,
                body: read(arena, body)?,
                span: *span,
            };
            Ok(placed(arena, node)?)
        }
        Expr::Let {
            mult,
            name,
            ty,
            value,
            body,
            span,
        } => {
            let node = Node::Let {
                mult: *mult,
                name: bound(name),
                ty: read_annotation(arena, ty)?,
                value: read(arena, value)?,
                body: read(arena, body)?,
                span: *span,
            };
            placed(arena, node)
        }
        Expr::Do { statements, span } => {
            let node = Node::Do {
                statements: read_statements(arena, statements)?,
                span: *span,
            };
            Ok(placed(arena, node)?)
        }
    }
}

#[cycle(read)]
#[tactic(auto, using(crate::proofs::ReadParts::parts))]
fn read_annotation<'a>(
    arena: &'a Bump,
    source: &'a Option<Box<Expr>>,
) -> Result<Annotation<'a>, MemoryError>
    ensures { IfOk result (λ ty. annotation_tree ty ≡ written_type source.now) }
{
    match source {
        Some(ty) => Ok(Annotation::Typed(read(arena, ty)?)),
        None => Ok(Annotation::Untyped),
    }
}

/// An argument in front of others.
#[cycle(read)]
#[tactic(auto, using(crate::proofs::ReadParts::parts))]
fn read_argument<'a>(
    arena: &'a Bump,
    source: &'a Argument,
    others: &'a Arguments<'a>,
) -> Result<&'a Arguments<'a>, MemoryError>
    ensures { IfOk result (λ row. argument_row row.now ≡
        argument_and (argument_of source.now) (argument_row others.now)) }
{
    let (mark, value) = match source {
        Argument::Written(value) => (Mark::Written, value),
        Argument::Braced(value) => (Mark::Braced, value),
        Argument::Inserted(value) => (Mark::Inserted, value),
    };
    let value = read(arena, value)?;
    placed(
        arena,
        Arguments::More {
            mark,
            value,
            others,
        },
    )
}

#[cycle(read)]
#[tactic(auto, using(crate::proofs::ReadParts::parts))]
fn read_arguments<'a>(
    arena: &'a Bump,
    source: &'a [Argument],
) -> Result<&'a Arguments<'a>, MemoryError>
    ensures { IfOk result (λ row. argument_row row.now ≡ arguments (map argument_of source.now)) }
{
    let mut row: &'a Arguments<'a> = placed(arena, Arguments::End)?;
    for index in (0..source.len()).rev() {
        row = read_argument(arena, &source[index], row)?;
    }
    Ok(row)
}

/// A binder in front of others.
#[cycle(read)]
#[tactic(auto, using(crate::proofs::ReadParts::parts))]
fn read_binder<'a>(
    arena: &'a Bump,
    source: &'a Binder,
    others: &'a Binders<'a>,
) -> Result<&'a Binders<'a>, MemoryError>
    ensures { IfOk result (λ row. binder_row row.now ≡
        binder_and (binder_of source.now) (binder_row others.now)) }
{
    match source {
        Binder::Plain(name) => placed(
            arena,
            Binders::Plain {
                name: bound(name),
                others,
            },
        ),
        Binder::Typed {
            mult,
            name,
            ty,
            span,
        } => {
            let row = Binders::Typed {
                mult: *mult,
                name: bound(name),
                ty: read(arena, ty)?,
                span: *span,
                others,
            };
            placed(arena, row)
        }
    }
}

#[cycle(read)]
#[tactic(auto, using(crate::proofs::ReadParts::parts))]
fn read_binders<'a>(arena: &'a Bump, source: &'a [Binder]) -> Result<&'a Binders<'a>, MemoryError>
    ensures { IfOk result (λ row. binder_row row.now ≡ binders (map binder_of source.now)) }
{
    let mut row: &'a Binders<'a> = placed(arena, Binders::End)?;
    for index in (0..source.len()).rev() {
        row = read_binder(arena, &source[index], row)?;
    }
    Ok(row)
}

/// A statement in front of others.
#[cycle(read)]
#[tactic(auto, using(crate::proofs::ReadParts::parts))]
fn read_statement<'a>(
    arena: &'a Bump,
    source: &'a Statement,
    others: &'a Statements<'a>,
) -> Result<&'a Statements<'a>, MemoryError>
    ensures { IfOk result (λ row. statement_row row.now ≡
        statement_and (statement_of source.now) (statement_row others.now)) }
{
    match source {
        Statement::Bind { name, value } => {
            let row = Statements::Bind {
                name: bound(name),
                value: read(arena, value)?,
                others,
            };
            placed(arena, row)
        }
        Statement::Let {
            mult,
            name,
            ty,
            value,
            span,
        } => {
            let row = Statements::Let {
                mult: *mult,
                name: bound(name),
                ty: read_annotation(arena, ty)?,
                value: read(arena, value)?,
                span: *span,
                others,
            };
            placed(arena, row)
        }
        Statement::Run { value, span } => {
            let row = Statements::Run {
                value: read(arena, value)?,
                span: *span,
                others,
            };
            placed(arena, row)
        }
    }
}

#[cycle(read)]
#[tactic(auto, using(crate::proofs::ReadParts::parts))]
fn read_statements<'a>(
    arena: &'a Bump,
    source: &'a [Statement],
) -> Result<&'a Statements<'a>, MemoryError>
    ensures { IfOk result (λ row.
        statement_row row.now ≡ statements (map statement_of source.now)) }
{
    let mut row: &'a Statements<'a> = placed(arena, Statements::End)?;
    for index in (0..source.len()).rev() {
        row = read_statement(arena, &source[index], row)?;
    }
    Ok(row)
}
