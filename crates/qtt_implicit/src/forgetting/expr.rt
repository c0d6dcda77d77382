//! Expressions without what was filled in.

ghost use Rattle.std.specs.Prelude.{◌≡◌, map, filter_map, option_map, IfOk};
ghost use Rattle.qtt_syntax.specs.View.{tree_of, written_type, argument_of, binder_of, statement_of};
ghost use Rattle.qtt_implicit.specs.Moving.{bound};
ghost use Rattle.qtt_implicit.specs.Forgetting.{number_of, without, annotation_without, argument_without, binder_without, statement_without, behind_binder, behind_statement, in_passing};

use super::numbers::{Numbers, more};
use qtt_base::MemoryError;
use qtt_syntax::{Argument, Binder, Expr, Local, Statement};
use std::alloc::Global;

fn copied_local(source: &Local) -> Result<Local, MemoryError>
    ensures { IfOk result (λ copy. copy ≡ source.now) }
{
    Ok(Local {
        name: source.name.copy()?,
        span: source.span,
    })
}

fn copied_bytes(alloc: Global, source: &[u8]) -> Result<Vec<u8>, MemoryError>
    ensures { IfOk result (λ copy. copy.items ≡ source.now) }
{
    Ok(source.to_vec(alloc)?)
}

// Each method gives a part of a tree without what was filled in, behind so many binders of the
// tree's own.
impl Numbers {
    #[cycle(without)]
    #[tactic(auto, using(crate::proofs::ForgottenParts::parts))]
    pub fn expr(&self, alloc: Global, depth: u32, source: &Expr) -> Result<Expr, MemoryError>
        ensures { IfOk result (λ e. tree_of e ≡ without (number_of self.now) depth
            (tree_of source.now)) }
    {
        match source {
            Expr::Name(named) => Ok(Expr::Name(self.name(depth, named)?)),
            Expr::Number { value, span } => Ok(Expr::Number {
                value: *value,
                span: *span,
            }),
            Expr::Text { value, span } => Ok(Expr::Text {
                value: copied_bytes(alloc, value)?,
                span: *span,
            }),
            Expr::Type {
                level,
                level_span,
                span,
            } => Ok(Expr::Type {
                level: *level,
                level_span: *level_span,
                span: *span,
            }),
            Expr::Hole { name, span } => Ok(Expr::Hole {
                name: name.copy()?,
                span: *span,
            }),
            Expr::The { ty, value, span } => {
                let ty = self.boxed(alloc, depth, ty)?;
                let value = self.boxed(alloc, depth, value)?;
                Ok(Expr::The {
                    ty,
                    value,
                    span: *span,
                })
            }
            Expr::Apply {
                function,
                arguments,
                span,
            } => {
                let function = self.boxed(alloc, depth, function)?;
                let arguments = self.arguments(alloc, depth, arguments)?;
                Ok(Expr::Apply {
                    function,
                    arguments,
                    span: *span,
                })
            }
            Expr::Pi {
                mark,
                mult,
                name,
                domain,
                codomain,
                span,
            } => {
                let domain = self.boxed(alloc, depth, domain)?;
                let codomain = self.boxed(alloc, more(depth, 1)?, codomain)?;
                Ok(Expr::Pi {
                    mark: *mark,
                    mult: *mult,
                    name: name.copy()?,
                    domain,
                    codomain,
                    span: *span,
                })
            }
            Expr::Lambda {
                binders,
                body,
                span,
            } => {
                let inside = more(depth, binders.len())?;
                let binders = self.binders(alloc, depth, binders)?;
                let body = self.boxed(alloc, inside, body)?;
                Ok(Expr::Lambda {
                    binders,
                    body,
                    span: *span,
                })
            }
            Expr::Let {
                mult,
                name,
                ty,
                value,
                body,
                span,
            } => {
                let ty = self.annotation(alloc, depth, ty)?;
                let value = self.boxed(alloc, depth, value)?;
                let body = self.boxed(alloc, more(depth, 1)?, body)?;
                Ok(Expr::Let {
                    mult: *mult,
                    name: copied_local(name)?,
                    ty,
                    value,
                    body,
                    span: *span,
                })
            }
            Expr::Do { statements, span } => Ok(Expr::Do {
                statements: self.statements(alloc, depth, statements)?,
                span: *span,
            }),
        }
    }

    #[cycle(without)]
    fn boxed(&self, alloc: Global, depth: u32, source: &Expr) -> Result<Box<Expr>, MemoryError>
        ensures { IfOk result (λ e. tree_of e.value ≡ without (number_of self.now) depth
            (tree_of source.now)) }
    {
        Ok(Box::new(alloc, self.expr(alloc, depth, source)?)?)
    }

    #[cycle(without)]
    fn annotation(
        &self,
        alloc: Global,
        depth: u32,
        source: &Option<Box<Expr>>,
    ) -> Result<Option<Box<Expr>>, MemoryError>
        ensures { IfOk result (λ ty. written_type ty ≡ annotation_without (number_of self.now)
            depth (written_type source.now)) }
    {
        match source {
            Some(ty) => Ok(Some(self.boxed(alloc, depth, ty)?)),
            None => Ok(None),
        }
    }

    /// An argument, or nothing where it was inserted.
    #[cycle(without)]
    fn argument(
        &self,
        alloc: Global,
        depth: u32,
        source: &Argument,
    ) -> Result<Option<Argument>, MemoryError>
        ensures { IfOk result (λ argument. option_map argument_of argument ≡ argument_without
            (number_of self.now) depth (argument_of source.now)) }
    {
        match source {
            Argument::Written(e) => Ok(Some(Argument::Written(self.expr(alloc, depth, e)?))),
            Argument::Braced(e) => Ok(Some(Argument::Braced(self.expr(alloc, depth, e)?))),
            Argument::Inserted(_) => Ok(None),
        }
    }

    #[cycle(without)]
    #[tactic(auto, using(crate::proofs::ForgottenParts::parts))]
    fn arguments(
        &self,
        alloc: Global,
        depth: u32,
        source: &[Argument],
    ) -> Result<Vec<Argument>, MemoryError>
        ensures { IfOk result (λ done. map argument_of done.items ≡ filter_map
            (argument_without (number_of self.now) depth) (map argument_of source.now)) }
    {
        let mut done = Vec::with_capacity(alloc, source.len())?;
        for argument in source {
            if let Some(argument) = self.argument(alloc, depth, argument)? {
                done.push(argument)?;
            }
        }
        Ok(done)
    }

    #[cycle(without)]
    fn binder(&self, alloc: Global, depth: u32, source: &Binder) -> Result<Binder, MemoryError>
        ensures { IfOk result (λ binder. binder_of binder ≡ binder_without (number_of self.now)
            depth (binder_of source.now)) }
    {
        match source {
            Binder::Plain(name) => Ok(Binder::Plain(copied_local(name)?)),
            Binder::Typed {
                mult,
                name,
                ty,
                span,
            } => Ok(Binder::Typed {
                mult: *mult,
                name: copied_local(name)?,
                ty: self.expr(alloc, depth, ty)?,
                span: *span,
            }),
        }
    }

    /// Binders, each behind those before it.
    #[cycle(without)]
    #[tactic(auto, using(crate::proofs::ForgottenParts::parts))]
    fn binders(
        &self,
        alloc: Global,
        mut depth: u32,
        source: &[Binder],
    ) -> Result<Vec<Binder>, MemoryError>
        ensures { IfOk result (λ done. map binder_of done.items ≡ in_passing behind_binder
            (binder_without (number_of self.now)) depth (map binder_of source.now)) }
    {
        let mut done = Vec::with_capacity(alloc, source.len())?;
        for binder in source {
            done.push(self.binder(alloc, depth, binder)?)?;
            depth = more(depth, 1)?;
        }
        Ok(done)
    }

    #[cycle(without)]
    #[tactic(auto, using(crate::proofs::ForgottenParts::parts))]
    fn statement(
        &self,
        alloc: Global,
        depth: u32,
        source: &Statement,
    ) -> Result<Statement, MemoryError>
        ensures { IfOk result (λ statement. statement_of statement ≡ statement_without
            (number_of self.now) depth (statement_of source.now)) }
    {
        match source {
            Statement::Bind { name, value } => Ok(Statement::Bind {
                name: copied_local(name)?,
                value: self.expr(alloc, depth, value)?,
            }),
            Statement::Let {
                mult,
                name,
                ty,
                value,
                span,
            } => {
                let ty = self.annotation(alloc, depth, ty)?;
                let value = self.expr(alloc, depth, value)?;
                Ok(Statement::Let {
                    mult: *mult,
                    name: copied_local(name)?,
                    ty,
                    value,
                    span: *span,
                })
            }
            Statement::Run { value, span } => Ok(Statement::Run {
                value: self.expr(alloc, depth, value)?,
                span: *span,
            }),
        }
    }

    /// Statements, each behind what those before it bind.
    #[cycle(without)]
    #[tactic(auto, using(crate::proofs::ForgottenParts::parts))]
    fn statements(
        &self,
        alloc: Global,
        mut depth: u32,
        source: &[Statement],
    ) -> Result<Vec<Statement>, MemoryError>
        ensures { IfOk result (λ done. map statement_of done.items ≡ in_passing behind_statement
            (statement_without (number_of self.now)) depth (map statement_of source.now)) }
    {
        let mut done = Vec::with_capacity(alloc, source.len())?;
        for statement in source {
            done.push(self.statement(alloc, depth, statement)?)?;
            depth = more(depth, bound_by(statement))?;
        }
        Ok(done)
    }
}

/// How many names a statement binds for those behind it.
fn bound_by(statement: &Statement) -> usize
    ensures { result ≡ bound (statement_of statement.now) }
{
    match statement {
        Statement::Bind { .. } | Statement::Let { .. } => 1,
        Statement::Run { .. } => 0,
    }
}
