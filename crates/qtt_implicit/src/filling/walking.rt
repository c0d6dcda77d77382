//! Expressions with what is filled in.

ghost use Rattle.std.specs.Prelude.{◌≡◌, codes};
ghost use Rattle.qtt_implicit.specs.KnownItems.{known_of};
ghost use Rattle.qtt_implicit.specs.Meeting.{Meets};
ghost use Rattle.qtt_implicit.specs.Nodes.{annotation_tree, argument_row, binder_row, node_tree, statement_row, used_name};
ghost use Rattle.qtt_implicit.specs.TextTypes.{given_list, local_types, walked_of};
ghost use Rattle.qtt_implicit.specs.Walking.{then_of};
ghost use Rattle.qtt_implicit.specs.Walk.{applied_name as name_applied, walk as tree_walked, walk_annotation as annotation_walked, walk_arguments as arguments_walked, walk_binders as binders_walked, walk_statements as statements_walked};

use crate::filling::calls::applied_name;
use crate::filling::judging::{
    BindersThen, behind_let, behind_result, behind_tree, behind_unknown, plainly, the, unjudged,
};
use crate::filling::known::Known;
use crate::filling::left::Left;
use crate::filling::parts::{Given, Givens, Locals, Walked};
use crate::filling::signature::Call;
use crate::filling::stop::Stop;
use crate::filling::text_type::TextType;
use crate::filling::trees::{Annotation, Arguments, Binders, Node, Statements, Used, placed};
use bumpalo::Bump;
use qtt_base::{Name, Span};

/// The names of the types of literals.
#[derive(Drop)]
pub(crate) struct Literals {
    pub int: Name,
    pub string: Name,
    pub ghost int_is: { int ≡ codes "Int" },
    pub ghost string_is: { string ≡ codes "String" },
}

/// What an expression is walked with: the signatures that are seen, an arena, and the names of
/// the types of literals.
#[derive(Clone, Copy)]
pub(crate) struct Walk<'k, 'a> {
    pub known: &'k Known<'a>,
    pub arena: &'a Bump,
    pub literals: &'a Literals,
}

impl<'k, 'a> Walk<'k, 'a> {
    /// A used name with its arguments.
    fn applied(
        &self,
        name: Used<'a>,
        givens: &'a Givens<'a>,
        span: Span,
        locals: &'a Locals<'a>,
        left: &mut Left,
    ) -> Result<Walked<'a>, Stop<'a>>
        ensures { Meets walked_of result (name_applied (known_of self.now.known.now)
            (local_types locals.now) name.entry.target (used_name name.entry)
            (given_list givens.now) span left.old.nodes) left.new.nodes }
    {
        let call = Call { name, givens, span };
        applied_name(self.known, self.arena, locals, call, left)
    }

    /// An expression.
    #[cycle(walk)]
    pub fn node(
        &self,
        source: &'a Node<'a>,
        locals: &'a Locals<'a>,
        left: &mut Left,
    ) -> Result<Walked<'a>, Stop<'a>>
        ensures { Meets walked_of result (tree_walked (known_of self.now.known.now)
            (local_types locals.now) (node_tree source.now) left.old.nodes) left.new.nodes }
    {
        match source {
            Node::Unknown(_) | Node::Type { .. } | Node::Hole { .. } => {
                Ok(unjudged(self.arena, *source)?)
            }
            Node::Name(used) => {
                let givens = placed(self.arena, Givens::End)?;
                self.applied(*used, givens, used.span, locals, left)
            }
            Node::Number { .. } => Ok(Walked {
                tree: source,
                ty: TextType::of_prim(self.arena, 0, &self.literals.int)?,
            }),
            Node::Text { .. } => Ok(Walked {
                tree: source,
                ty: TextType::of_prim(self.arena, 1, &self.literals.string)?,
            }),
            Node::The { ty, value, span } => {
                let ty = self.node(ty, locals, left)?;
                let value = self.node(value, locals, left)?;
                Ok(the(self.arena, ty, value, *span)?)
            }
            Node::Apply {
                function,
                arguments,
                span,
            } => match function {
                Node::Name(used) => {
                    let givens = self.arguments(arguments, locals, left)?;
                    self.applied(*used, givens, *span, locals, left)
                }
                _ => {
                    let function = self.node(function, locals, left)?;
                    let givens = self.arguments(arguments, locals, left)?;
                    Ok(plainly(self.arena, function, givens, *span)?)
                }
            },
            Node::Pi {
                mark,
                mult,
                name,
                domain,
                codomain,
                span,
            } => {
                let domain = self.node(domain, locals, left)?;
                let inner = behind_tree(self.arena, domain.tree, locals)?;
                let codomain = self.node(codomain, inner, left)?;
                let pi = Node::Pi {
                    mark: *mark,
                    mult: *mult,
                    name,
                    domain: domain.tree,
                    codomain: codomain.tree,
                    span: *span,
                };
                Ok(unjudged(self.arena, pi)?)
            }
            Node::Lambda {
                binders,
                body,
                span,
            } => {
                let row = self.binders(binders, locals, left)?;
                let body = self.node(body, row.locals, left)?;
                let lambda = Node::Lambda {
                    binders: row.binders,
                    body: body.tree,
                    span: *span,
                };
                Ok(unjudged(self.arena, lambda)?)
            }
            Node::Let {
                mult,
                name,
                ty,
                value,
                body,
                span,
            } => {
                let ty = self.annotation(*ty, locals, left)?;
                let value = self.node(value, locals, left)?;
                let inner = behind_let(self.arena, ty, value.ty, locals)?;
                let body = self.node(body, inner, left)?;
                let letting = Node::Let {
                    mult: *mult,
                    name: *name,
                    ty,
                    value: value.tree,
                    body: body.tree,
                    span: *span,
                };
                Ok(unjudged(self.arena, letting)?)
            }
            Node::Do { statements, span } => {
                let statements = self.statements(statements, locals, left)?;
                let doing = Node::Do {
                    statements,
                    span: *span,
                };
                Ok(unjudged(self.arena, doing)?)
            }
        }
    }

    #[cycle(walk)]
    fn annotation(
        &self,
        source: Annotation<'a>,
        locals: &'a Locals<'a>,
        left: &mut Left,
    ) -> Result<Annotation<'a>, Stop<'a>>
        ensures { Meets annotation_tree result (annotation_walked (known_of self.now.known.now)
            (local_types locals.now) (annotation_tree source.entry) left.old.nodes)
            left.new.nodes }
    {
        match source {
            Annotation::Untyped => Ok(Annotation::Untyped),
            Annotation::Typed(ty) => Ok(Annotation::Typed(self.node(ty, locals, left)?.tree)),
        }
    }

    /// The arguments of an application.
    #[cycle(walk)]
    fn arguments(
        &self,
        source: &'a Arguments<'a>,
        locals: &'a Locals<'a>,
        left: &mut Left,
    ) -> Result<&'a Givens<'a>, Stop<'a>>
        ensures { Meets (λ xs. given_list xs.now) result (arguments_walked
            (known_of self.now.known.now) (local_types locals.now) (argument_row source.now)
            left.old.nodes) left.new.nodes }
    {
        match source {
            Arguments::End => Ok(placed(self.arena, Givens::End)?),
            Arguments::More {
                mark,
                value,
                others,
            } => {
                let value = self.node(value, locals, left)?;
                let others = self.arguments(others, locals, left)?;
                let given = Given {
                    mark: *mark,
                    tree: value.tree,
                    ty: value.ty,
                };
                Ok(placed(self.arena, Givens::More { given, others })?)
            }
        }
    }

    /// The binders of a `\`, and the local names behind them.
    #[cycle(walk)]
    fn binders(
        &self,
        source: &'a Binders<'a>,
        locals: &'a Locals<'a>,
        left: &mut Left,
    ) -> Result<BindersThen<'a>, Stop<'a>>
        ensures { Meets then_of result (binders_walked (known_of self.now.known.now)
            (local_types locals.now) (binder_row source.now) left.old.nodes) left.new.nodes }
    {
        match source {
            Binders::End => Ok(BindersThen {
                binders: source,
                locals,
            }),
            Binders::Plain { name, others } => {
                let inner = behind_unknown(self.arena, locals)?;
                let others = self.binders(others, inner, left)?;
                let row = Binders::Plain {
                    name: *name,
                    others: others.binders,
                };
                Ok(others.with(self.arena, row)?)
            }
            Binders::Typed {
                mult,
                name,
                ty,
                span,
                others,
            } => {
                let ty = self.node(ty, locals, left)?;
                let inner = behind_tree(self.arena, ty.tree, locals)?;
                let others = self.binders(others, inner, left)?;
                let row = Binders::Typed {
                    mult: *mult,
                    name: *name,
                    ty: ty.tree,
                    span: *span,
                    others: others.binders,
                };
                Ok(others.with(self.arena, row)?)
            }
        }
    }

    /// The statements of a `do`.
    #[cycle(walk)]
    fn statements(
        &self,
        source: &'a Statements<'a>,
        locals: &'a Locals<'a>,
        left: &mut Left,
    ) -> Result<&'a Statements<'a>, Stop<'a>>
        ensures { Meets (λ ss. statement_row ss.now) result (statements_walked
            (known_of self.now.known.now) (local_types locals.now) (statement_row source.now)
            left.old.nodes) left.new.nodes }
    {
        match source {
            Statements::End => Ok(source),
            Statements::Bind {
                name,
                value,
                others,
            } => {
                let value = self.node(value, locals, left)?;
                let inner = behind_result(self.arena, value.ty, locals)?;
                let others = self.statements(others, inner, left)?;
                let row = Statements::Bind {
                    name: *name,
                    value: value.tree,
                    others,
                };
                Ok(placed(self.arena, row)?)
            }
            Statements::Let {
                mult,
                name,
                ty,
                value,
                span,
                others,
            } => {
                let ty = self.annotation(*ty, locals, left)?;
                let value = self.node(value, locals, left)?;
                let inner = behind_let(self.arena, ty, value.ty, locals)?;
                let others = self.statements(others, inner, left)?;
                let row = Statements::Let {
                    mult: *mult,
                    name: *name,
                    ty,
                    value: value.tree,
                    span: *span,
                    others,
                };
                Ok(placed(self.arena, row)?)
            }
            Statements::Run {
                value,
                span,
                others,
            } => {
                let value = self.node(value, locals, left)?;
                let others = self.statements(others, locals, left)?;
                let row = Statements::Run {
                    value: value.tree,
                    span: *span,
                    others,
                };
                Ok(placed(self.arena, row)?)
            }
        }
    }
}
