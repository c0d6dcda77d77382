//! Copies of expressions.

ghost use Rattle.std.specs.Prelude.{◌≡◌, IfOk, map};
ghost use Rattle.qtt_syntax.specs.View.{tree_of, written_type, argument_of, binder_of, statement_of};

use crate::expr::{Argument, Binder, Expr, Local, Named, Statement};
use qtt_base::MemoryError;
use std::alloc::Global;

impl Expr {
    /// An expression that stands for the same tree.
    pub fn copy(&self, alloc: Global) -> Result<Expr, MemoryError>
        ensures { IfOk result (λ copy. tree_of copy ≡ tree_of self.now) }
    {
        copied(alloc, self)
    }
}

fn copied_name(source: &Named) -> Result<Named, MemoryError>
    ensures { IfOk result (λ copy. copy ≡ source.now) }
{
    Ok(Named {
        path: source.path.copy()?,
        target: source.target,
        span: source.span,
    })
}

fn copied_local(source: &Local) -> Result<Local, MemoryError>
    ensures { IfOk result (λ copy. copy ≡ source.now) }
{
    Ok(Local {
        name: source.name.copy()?,
        span: source.span,
    })
}

fn copied_bytes(alloc: Global, source: &[u8]) -> Result<Vec<u8>, MemoryError>
    ensures { IfOk result (λ copy. copy.items ≡ source.now) }
{
    Ok(source.to_vec(alloc)?)
}

#[cycle(copied)]
#[tactic(auto, using(crate::proofs::Rows::rows))]
fn copied(alloc: Global, source: &Expr) -> Result<Expr, MemoryError>
    ensures { IfOk result (λ copy. tree_of copy ≡ tree_of source.now) }
{
    match source {
        Expr::Name(named) => Ok(Expr::Name(copied_name(named)?)),
        Expr::Number { value, span } => Ok(Expr::Number {
            value: *value,
            span: *span,
        }),
        Expr::Text { value, span } => Ok(Expr::Text {
            value: copied_bytes(alloc, value)?,
            span: *span,
        }),
        Expr::Type {
            level,
            level_span,
            span,
        } => Ok(Expr::Type {
            level: *level,
            level_span: *level_span,
            span: *span,
        }),
        Expr::Hole { name, span } => Ok(Expr::Hole {
            name: name.copy()?,
            span: *span,
        }),
        Expr::The { ty, value, span } => {
            let ty = boxed(alloc, ty)?;
            let value = boxed(alloc, value)?;
            Ok(Expr::The {
                ty,
                value,
                span: *span,
            })
        }
        Expr::Apply {
            function,
            arguments,
            span,
        } => {
            let function = boxed(alloc, function)?;
            let arguments = copied_arguments(alloc, arguments)?;
            Ok(Expr::Apply {
                function,
                arguments,
                span: *span,
            })
        }
        Expr::Pi {
            mark,
            mult,
            name,
            domain,
            codomain,
            span,
        } => {
            let domain = boxed(alloc, domain)?;
            let codomain = boxed(alloc, codomain)?;
            Ok(Expr::Pi {
                mark: *mark,
                mult: *mult,
                name: name.copy()?,
                domain,
                codomain,
                span: *span,
            })
        }
        Expr::Lambda {
            binders,
            body,
            span,
        } => {
            let binders = copied_binders(alloc, binders)?;
            let body = boxed(alloc, body)?;
            Ok(Expr::Lambda {
                binders,
                body,
                span: *span,
            })
        }
        Expr::Let {
            mult,
            name,
            ty,
            value,
            body,
            span,
        } => {
            let ty = copied_type(alloc, ty)?;
            let value = boxed(alloc, value)?;
            let body = boxed(alloc, body)?;
            Ok(Expr::Let {
                mult: *mult,
                name: copied_local(name)?,
                ty,
                value,
                body,
                span: *span,
            })
        }
        Expr::Do { statements, span } => Ok(Expr::Do {
            statements: copied_statements(alloc, statements)?,
            span: *span,
        }),
    }
}

#[cycle(copied)]
fn boxed(alloc: Global, source: &Expr) -> Result<Box<Expr>, MemoryError>
    ensures { IfOk result (λ copy. tree_of copy.value ≡ tree_of source.now) }
{
    Ok(Box::new(alloc, copied(alloc, source)?)?)
}

#[cycle(copied)]
fn copied_type(alloc: Global, source: &Option<Box<Expr>>) -> Result<Option<Box<Expr>>, MemoryError>
    ensures { IfOk result (λ copy. written_type copy ≡ written_type source.now) }
{
    match source {
        Some(ty) => Ok(Some(boxed(alloc, ty)?)),
        None => Ok(None),
    }
}

#[cycle(copied)]
fn copied_argument(alloc: Global, source: &Argument) -> Result<Argument, MemoryError>
    ensures { IfOk result (λ copy. argument_of copy ≡ argument_of source.now) }
{
    match source {
        Argument::Written(e) => Ok(Argument::Written(copied(alloc, e)?)),
        Argument::Braced(e) => Ok(Argument::Braced(copied(alloc, e)?)),
        Argument::Inserted(e) => Ok(Argument::Inserted(copied(alloc, e)?)),
    }
}

#[cycle(copied)]
fn copied_arguments(alloc: Global, source: &[Argument]) -> Result<Vec<Argument>, MemoryError>
    ensures { IfOk result (λ copies. map argument_of copies.items ≡ map argument_of source.now) }
{
    let mut copies = Vec::with_capacity(alloc, source.len())?;
    for argument in source {
        copies.push(copied_argument(alloc, argument)?)?;
    }
    Ok(copies)
}

#[cycle(copied)]
fn copied_binder(alloc: Global, source: &Binder) -> Result<Binder, MemoryError>
    ensures { IfOk result (λ copy. binder_of copy ≡ binder_of source.now) }
{
    match source {
        Binder::Plain(name) => Ok(Binder::Plain(copied_local(name)?)),
        Binder::Typed {
            mult,
            name,
            ty,
            span,
        } => Ok(Binder::Typed {
            mult: *mult,
            name: copied_local(name)?,
            ty: copied(alloc, ty)?,
            span: *span,
        }),
    }
}

#[cycle(copied)]
fn copied_binders(alloc: Global, source: &[Binder]) -> Result<Vec<Binder>, MemoryError>
    ensures { IfOk result (λ copies. map binder_of copies.items ≡ map binder_of source.now) }
{
    let mut copies = Vec::with_capacity(alloc, source.len())?;
    for binder in source {
        copies.push(copied_binder(alloc, binder)?)?;
    }
    Ok(copies)
}

#[cycle(copied)]
#[tactic(auto, using(crate::proofs::Rows::rows))]
fn copied_statement(alloc: Global, source: &Statement) -> Result<Statement, MemoryError>
    ensures { IfOk result (λ copy. statement_of copy ≡ statement_of source.now) }
{
    match source {
        Statement::Bind { name, value } => Ok(Statement::Bind {
            name: copied_local(name)?,
            value: copied(alloc, value)?,
        }),
        Statement::Let {
            mult,
            name,
            ty,
            value,
            span,
        } => {
            let ty = copied_type(alloc, ty)?;
            let value = copied(alloc, value)?;
            Ok(Statement::Let {
                mult: *mult,
                name: copied_local(name)?,
                ty,
                value,
                span: *span,
            })
        }
        Statement::Run { value, span } => Ok(Statement::Run {
            value: copied(alloc, value)?,
            span: *span,
        }),
    }
}

#[cycle(copied)]
fn copied_statements(alloc: Global, source: &[Statement]) -> Result<Vec<Statement>, MemoryError>
    ensures { IfOk result (λ copies. map statement_of copies.items ≡ map statement_of source.now) }
{
    let mut copies = Vec::with_capacity(alloc, source.len())?;
    for statement in source {
        copies.push(copied_statement(alloc, statement)?)?;
    }
    Ok(copies)
}
