//! Expressions with the targets of their names.

ghost use Rattle.std.specs.Prelude.{◌≡◌, ◌++◌, ◌∷◌, [], map, fold, IfOk, OnOk};
ghost use Rattle.qtt_syntax.specs.View.{tree_of, written_type, argument_of, binder_of, statement_of};
ghost use Rattle.qtt_names.specs.InTurn.{in_turn};
ghost use Rattle.qtt_names.specs.Filled.{filled, filled_annotation, filled_argument, filled_binder, filled_statement, unmoved, behind_binder, behind_statement};
ghost use Rattle.qtt_names.specs.View.{Gives, names_of, boxed_tree, argument_list, binder_list, statement_list};

use crate::errors::NamesError;
use crate::target::Resolver;
use qtt_base::{MemoryError, Name};
use qtt_syntax::{Argument, Binder, Expr, Local, Statement};
use std::alloc::Global;

fn copied(local: &Local) -> Result<Local, MemoryError>
    ensures { IfOk result (λ copy. copy ≡ local.now) }
{
    Ok(Local {
        name: local.name.copy()?,
        span: local.span,
    })
}

fn copied_bytes(alloc: Global, bytes: &[u8]) -> Result<Vec<u8>, MemoryError>
    ensures { IfOk result (λ copy. copy.items ≡ bytes.now) }
{
    Ok(bytes.to_vec(alloc)?)
}

// Each method gives a part of a tree with the targets of its names. `locals` are the names of
// the local binders around it, the oldest first.
impl Resolver<'_> {
    #[cycle(filled)]
    #[tactic(auto, using(crate::proofs::Parts::parts))]
    pub fn expr(&self, locals: &mut Vec<Name>, source: &Expr) -> Result<Expr, NamesError>
        ensures gives { Gives tree_of result
            (filled (names_of self.now) locals.old.items (tree_of source.now)) }
        ensures kept { OnOk result (locals.new.items ≡ locals.old.items) }
    {
        match source {
            Expr::Name(named) => Ok(Expr::Name(self.look_up(locals, named)?)),
            Expr::Number { value, span } => Ok(Expr::Number {
                value: *value,
                span: *span,
            }),
            Expr::Text { value, span } => Ok(Expr::Text {
                value: copied_bytes(self.alloc, value)?,
                span: *span,
            }),
            Expr::Type {
                level,
                level_span,
                span,
            } => Ok(Expr::Type {
                level: *level,
                level_span: *level_span,
                span: *span,
            }),
            Expr::Hole { name, span } => Ok(Expr::Hole {
                name: name.copy()?,
                span: *span,
            }),
            Expr::The { ty, value, span } => {
                let ty = Box::new(self.alloc, self.expr(locals, ty)?)?;
                let value = Box::new(self.alloc, self.expr(locals, value)?)?;
                Ok(Expr::The {
                    ty,
                    value,
                    span: *span,
                })
            }
            Expr::Apply {
                function,
                arguments,
                span,
            } => {
                let function = Box::new(self.alloc, self.expr(locals, function)?)?;
                let arguments = self.arguments(locals, arguments)?;
                Ok(Expr::Apply {
                    function,
                    arguments,
                    span: *span,
                })
            }
            Expr::Pi {
                mark,
                mult,
                name,
                domain,
                codomain,
                span,
            } => {
                let domain = Box::new(self.alloc, self.expr(locals, domain)?)?;
                let codomain = self.under(locals, name, codomain)?;
                Ok(Expr::Pi {
                    mark: *mark,
                    mult: *mult,
                    name: name.copy()?,
                    domain,
                    codomain,
                    span: *span,
                })
            }
            Expr::Lambda {
                binders,
                body,
                span,
            } => {
                let depth = locals.len();
                let binders = self.binders(locals, binders)?;
                let body = Box::new(self.alloc, self.expr(locals, body)?)?;
                locals.truncate(depth);
                Ok(Expr::Lambda {
                    binders,
                    body,
                    span: *span,
                })
            }
            Expr::Let {
                mult,
                name,
                ty,
                value,
                body,
                span,
            } => {
                let ty = self.annotation(locals, ty)?;
                let value = Box::new(self.alloc, self.expr(locals, value)?)?;
                let body = self.under(locals, &name.name, body)?;
                Ok(Expr::Let {
                    mult: *mult,
                    name: copied(name)?,
                    ty,
                    value,
                    body,
                    span: *span,
                })
            }
            Expr::Do { statements, span } => {
                let depth = locals.len();
                let statements = self.statements(locals, statements)?;
                locals.truncate(depth);
                Ok(Expr::Do {
                    statements,
                    span: *span,
                })
            }
        }
    }

    /// What stands behind a binder of this name.
    #[cycle(filled)]
    #[tactic(auto, using(crate::proofs::Parts::parts))]
    fn under(
        &self,
        locals: &mut Vec<Name>,
        name: &Name,
        source: &Expr,
    ) -> Result<Box<Expr>, NamesError>
        ensures gives { Gives boxed_tree result
            (filled (names_of self.now) (locals.old.items ++ name.now ∷ []) (tree_of source.now)) }
        ensures kept { OnOk result (locals.new.items ≡ locals.old.items) }
    {
        let depth = locals.len();
        locals.push(name.copy()?)?;
        let body = Box::new(self.alloc, self.expr(locals, source)?)?;
        locals.truncate(depth);
        Ok(body)
    }

    #[cycle(filled)]
    #[tactic(auto, using(crate::proofs::Parts::parts))]
    fn annotation(
        &self,
        locals: &mut Vec<Name>,
        source: &Option<Box<Expr>>,
    ) -> Result<Option<Box<Expr>>, NamesError>
        ensures gives { Gives written_type result
            (filled_annotation (names_of self.now) locals.old.items (written_type source.now)) }
        ensures kept { OnOk result (locals.new.items ≡ locals.old.items) }
    {
        match source {
            Some(ty) => Ok(Some(Box::new(self.alloc, self.expr(locals, ty)?)?)),
            None => Ok(None),
        }
    }

    #[cycle(filled)]
    #[tactic(auto, using(crate::proofs::Parts::parts))]
    fn argument(&self, locals: &mut Vec<Name>, source: &Argument) -> Result<Argument, NamesError>
        ensures gives { Gives argument_of result
            (filled_argument (names_of self.now) locals.old.items (argument_of source.now)) }
        ensures kept { OnOk result (locals.new.items ≡ locals.old.items) }
    {
        match source {
            Argument::Written(e) => Ok(Argument::Written(self.expr(locals, e)?)),
            Argument::Braced(e) => Ok(Argument::Braced(self.expr(locals, e)?)),
            Argument::Inserted(e) => Ok(Argument::Inserted(self.expr(locals, e)?)),
        }
    }

    #[cycle(filled)]
    #[tactic(auto, using(crate::proofs::Parts::parts))]
    fn arguments(
        &self,
        locals: &mut Vec<Name>,
        source: &[Argument],
    ) -> Result<Vec<Argument>, NamesError>
        ensures gives { Gives argument_list result
            (in_turn (filled_argument (names_of self.now)) unmoved locals.old.items
            (map argument_of source.now)) }
        ensures kept { OnOk result (locals.new.items ≡ locals.old.items) }
    {
        let mut done = Vec::with_capacity(self.alloc, source.len())?;
        for argument in source {
            done.push(self.argument(locals, argument)?)?;
        }
        Ok(done)
    }

    /// A binder, whose name is put behind the locals.
    #[cycle(filled)]
    #[tactic(auto, using(crate::proofs::Parts::parts))]
    fn binder(&self, locals: &mut Vec<Name>, source: &Binder) -> Result<Binder, NamesError>
        ensures gives { Gives binder_of result
            (filled_binder (names_of self.now) locals.old.items (binder_of source.now)) }
        ensures bound { OnOk result
            (locals.new.items ≡ behind_binder locals.old.items (binder_of source.now)) }
    {
        match source {
            Binder::Plain(name) => {
                locals.push(name.name.copy()?)?;
                Ok(Binder::Plain(copied(name)?))
            }
            Binder::Typed {
                mult,
                name,
                ty,
                span,
            } => {
                let ty = self.expr(locals, ty)?;
                locals.push(name.name.copy()?)?;
                Ok(Binder::Typed {
                    mult: *mult,
                    name: copied(name)?,
                    ty,
                    span: *span,
                })
            }
        }
    }

    /// Binders, whose names are put behind the locals.
    #[cycle(filled)]
    #[tactic(auto, using(crate::proofs::Parts::parts))]
    fn binders(&self, locals: &mut Vec<Name>, source: &[Binder]) -> Result<Vec<Binder>, NamesError>
        ensures gives { Gives binder_list result
            (in_turn (filled_binder (names_of self.now)) behind_binder locals.old.items
            (map binder_of source.now)) }
        ensures bound { OnOk result
            (locals.new.items ≡ fold behind_binder locals.old.items (map binder_of source.now)) }
    {
        let mut done = Vec::with_capacity(self.alloc, source.len())?;
        for binder in source {
            done.push(self.binder(locals, binder)?)?;
        }
        Ok(done)
    }

    /// A statement. The name that it binds, if it binds one, is put behind the locals.
    #[cycle(filled)]
    #[tactic(auto, using(crate::proofs::Parts::parts))]
    fn statement(&self, locals: &mut Vec<Name>, source: &Statement) -> Result<Statement, NamesError>
        ensures gives { Gives statement_of result
            (filled_statement (names_of self.now) locals.old.items (statement_of source.now)) }
        ensures bound { OnOk result
            (locals.new.items ≡ behind_statement locals.old.items (statement_of source.now)) }
    {
        match source {
            Statement::Bind { name, value } => {
                let value = self.expr(locals, value)?;
                locals.push(name.name.copy()?)?;
                Ok(Statement::Bind {
                    name: copied(name)?,
                    value,
                })
            }
            Statement::Let {
                mult,
                name,
                ty,
                value,
                span,
            } => {
                let ty = self.annotation(locals, ty)?;
                let value = self.expr(locals, value)?;
                locals.push(name.name.copy()?)?;
                Ok(Statement::Let {
                    mult: *mult,
                    name: copied(name)?,
                    ty,
                    value,
                    span: *span,
                })
            }
            Statement::Run { value, span } => Ok(Statement::Run {
                value: self.expr(locals, value)?,
                span: *span,
            }),
        }
    }

    /// Statements. The names that they bind are put behind the locals.
    #[cycle(filled)]
    #[tactic(auto, using(crate::proofs::Parts::parts))]
    fn statements(
        &self,
        locals: &mut Vec<Name>,
        source: &[Statement],
    ) -> Result<Vec<Statement>, NamesError>
        ensures gives { Gives statement_list result
            (in_turn (filled_statement (names_of self.now)) behind_statement locals.old.items
            (map statement_of source.now)) }
        ensures bound { OnOk result
            (locals.new.items ≡ fold behind_statement locals.old.items
            (map statement_of source.now)) }
    {
        let mut done = Vec::with_capacity(self.alloc, source.len())?;
        for statement in source {
            done.push(self.statement(locals, statement)?)?;
        }
        Ok(done)
    }
}
