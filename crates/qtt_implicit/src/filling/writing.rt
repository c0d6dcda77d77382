//! Trees of an arena written as expressions of their own.

ghost use Rattle.std.specs.Prelude.{◌≡◌, ◌++◌, [], map, IfOk};
ghost use Rattle.qtt_syntax.specs.View.{tree_of, written_type, argument_of, binder_of, statement_of};
ghost use Rattle.qtt_implicit.specs.Nodes.{used_name, bound_name, node_tree, annotation_tree, argument_row, binder_row, statement_row};
ghost use Rattle.qtt_implicit.specs.Parts.{argument_list, binder_list, statement_list};

use super::trees::{Annotation, Arguments, Binders, Bound, Node, Statements, Used};
use qtt_base::{MemoryError, Name, Span};
use qtt_syntax::{Argument, Binder, Expr, Local, Mark, Named, Statement, Target};
use std::alloc::Global;

/// The name that stands for nothing.
fn unknown_name(alloc: Global, span: Span) -> Result<Named, MemoryError>
    ensures { IfOk result (λ named. named ≡
        record { path = []; target = Target.Unknown; span = span }) }
{
    match Name::new(alloc, "") {
        Ok(path) => Ok(Named {
            path,
            target: Target::Unknown,
            span,
        }),
        Err(_) => Err(MemoryError),
    }
}

pub(crate) fn written_name(used: Used<'_>) -> Result<Named, MemoryError>
    ensures { IfOk result (λ named. named ≡ used_name used.entry) }
{
    Ok(Named {
        path: used.path.copy()?,
        target: used.target,
        span: used.span,
    })
}

fn written_local(bound: Bound<'_>) -> Result<Local, MemoryError>
    ensures { IfOk result (λ local. local ≡ bound_name bound.entry) }
{
    Ok(Local {
        name: bound.name.copy()?,
        span: bound.span,
    })
}

fn written_bytes(alloc: Global, source: &[u8]) -> Result<Vec<u8>, MemoryError>
    ensures { IfOk result (λ copy. copy.items ≡ source.now) }
{
    Ok(source.to_vec(alloc)?)
}

/// The expression that a tree stands for.
#[cycle(written)]
#[tactic(auto, using(crate::proofs::WrittenParts::parts))]
pub(crate) fn written(alloc: Global, source: &Node<'_>) -> Result<Expr, MemoryError>
    ensures { IfOk result (λ e. tree_of e ≡ node_tree source.now) }
{
    match source {
        Node::Unknown(span) => Ok(Expr::Name(unknown_name(alloc, *span)?)),
        Node::Name(used) => Ok(Expr::Name(written_name(*used)?)),
        Node::Number { value, span } => Ok(Expr::Number {
            value: *value,
            span: *span,
        }),
        Node::Text { value, span } => Ok(Expr::Text {
            value: written_bytes(alloc, value)?,
            span: *span,
        }),
        Node::Type {
            level,
            level_span,
            span,
        } => Ok(Expr::Type {
            level: *level,
            level_span: *level_span,
            span: *span,
        }),
        Node::Hole { name, span } => Ok(Expr::Hole {
            name: name.copy()?,
            span: *span,
        }),
        Node::The { ty, value, span } => {
            let ty = boxed(alloc, ty)?;
            let value = boxed(alloc, value)?;
            Ok(Expr::The {
                ty,
                value,
                span: *span,
            })
        }
        Node::Apply {
            function,
            arguments,
            span,
        } => {
            let function = boxed(alloc, function)?;
            let row = with_arguments(arguments, alloc, Vec::new(alloc))?;
            Ok(Expr::Apply {
                function,
                arguments: row,
                span: *span,
            })
        }
        Node::Pi {
            mark,
            mult,
            name,
            domain,
            codomain,
            span,
        } => {
            let domain = boxed(alloc, domain)?;
            let codomain = boxed(alloc, codomain)?;
            Ok(Expr::Pi {
                mark: *mark,
                mult: *mult,
                name: name.copy()?,
                domain,
                codomain,
                span: *span,
            })
        }
        Node::Lambda {
            binders,
            body,
            span,
        } => {
            let row = with_binders(binders, alloc, Vec::new(alloc))?;
            let body = boxed(alloc, body)?;
            Ok(Expr::Lambda {
                binders: row,
                body,
                span: *span,
            })
        }
        Node::Let {
            mult,
            name,
            ty,
            value,
            body,
            span,
        } => {
            let ty = written_annotation(alloc, ty)?;
            let value = boxed(alloc, value)?;
            let body = boxed(alloc, body)?;
            Ok(Expr::Let {
                mult: *mult,
                name: written_local(*name)?,
                ty,
                value,
                body,
                span: *span,
            })
        }
        Node::Do { statements, span } => {
            let row = with_statements(statements, alloc, Vec::new(alloc))?;
            Ok(Expr::Do {
                statements: row,
                span: *span,
            })
        }
    }
}

#[cycle(written)]
fn boxed(alloc: Global, source: &Node<'_>) -> Result<Box<Expr>, MemoryError>
    ensures { IfOk result (λ e. tree_of e.value ≡ node_tree source.now) }
{
    Ok(Box::new(alloc, written(alloc, source)?)?)
}

#[cycle(written)]
fn written_annotation(
    alloc: Global,
    source: &Annotation<'_>,
) -> Result<Option<Box<Expr>>, MemoryError>
    ensures { IfOk result (λ ty. written_type ty ≡ annotation_tree source.now) }
{
    match source {
        Annotation::Untyped => Ok(None),
        Annotation::Typed(ty) => Ok(Some(boxed(alloc, ty)?)),
    }
}

/// Arguments behind others.
#[cycle(written)]
#[tactic(auto, using(crate::proofs::WrittenParts::parts))]
fn with_arguments(
    source: &Arguments<'_>,
    alloc: Global,
    mut done: Vec<Argument>,
) -> Result<Vec<Argument>, MemoryError>
    ensures { IfOk result (λ row. map argument_of row.items ≡ map argument_of done.items ++
        argument_list (argument_row source.now)) }
{
    match source {
        Arguments::End => Ok(done),
        Arguments::More {
            mark,
            value,
            others,
        } => {
            let value = written(alloc, value)?;
            done.push(match mark {
                Mark::Written => Argument::Written(value),
                Mark::Braced => Argument::Braced(value),
                Mark::Inserted => Argument::Inserted(value),
            })?;
            with_arguments(others, alloc, done)
        }
    }
}

/// Binders behind others.
#[cycle(written)]
#[tactic(auto, using(crate::proofs::WrittenParts::parts))]
fn with_binders(
    source: &Binders<'_>,
    alloc: Global,
    mut done: Vec<Binder>,
) -> Result<Vec<Binder>, MemoryError>
    ensures { IfOk result (λ row. map binder_of row.items ≡ map binder_of done.items ++
        binder_list (binder_row source.now)) }
{
    match source {
        Binders::End => Ok(done),
        Binders::Plain { name, others } => {
            done.push(Binder::Plain(written_local(*name)?))?;
            with_binders(others, alloc, done)
        }
        Binders::Typed {
            mult,
            name,
            ty,
            span,
            others,
        } => {
            done.push(Binder::Typed {
                mult: *mult,
                name: written_local(*name)?,
                ty: written(alloc, ty)?,
                span: *span,
            })?;
            with_binders(others, alloc, done)
        }
    }
}

/// Statements behind others.
#[cycle(written)]
#[tactic(auto, using(crate::proofs::WrittenParts::parts))]
fn with_statements(
    source: &Statements<'_>,
    alloc: Global,
    mut done: Vec<Statement>,
) -> Result<Vec<Statement>, MemoryError>
    ensures { IfOk result (λ row. map statement_of row.items ≡ map statement_of done.items ++
        statement_list (statement_row source.now)) }
{
    match source {
        Statements::End => Ok(done),
        Statements::Bind {
            name,
            value,
            others,
        } => {
            done.push(Statement::Bind {
                name: written_local(*name)?,
                value: written(alloc, value)?,
            })?;
            with_statements(others, alloc, done)
        }
        Statements::Let {
            mult,
            name,
            ty,
            value,
            span,
            others,
        } => {
            let ty = written_annotation(alloc, ty)?;
            let value = written(alloc, value)?;
            done.push(Statement::Let {
                mult: *mult,
                name: written_local(*name)?,
                ty,
                value,
                span: *span,
            })?;
            with_statements(others, alloc, done)
        }
        Statements::Run {
            value,
            span,
            others,
        } => {
            done.push(Statement::Run {
                value: written(alloc, value)?,
                span: *span,
            })?;
            with_statements(others, alloc, done)
        }
    }
}
