//! Clauses whose local names count the inserted variables too.

ghost use Rattle.std.specs.Prelude.{◌≡◌, ◌+◌, IfOk};
ghost use Rattle.qtt_implicit.specs.Moving.{count, changed, changed_annotation, changed_arguments, changed_binders, changed_statements};
ghost use Rattle.qtt_implicit.specs.Forgetting.{renumbering};
ghost use Rattle.qtt_implicit.specs.Placing.{place_of, shape_renumbered, shapes_renumbered};
ghost use Rattle.qtt_implicit.specs.Nodes.{node_tree, annotation_tree, argument_row, binder_row, statement_row};
ghost use Rattle.qtt_implicit.specs.Shaping.{shape_tree, shape_row};

use super::places::Places;
use super::shapes::{Shape, Shapes};
use super::trees::{Annotation, Arguments, Binders, Node, Statements, Used, placed};
use crate::forgetting::numbers::more;
use bumpalo::Bump;
use qtt_base::MemoryError;

/// How many binders stand before what is behind these.
fn behind_binders(depth: u32, binders: &Binders<'_>) -> Result<u32, MemoryError>
    ensures { IfOk result (λ n. n ≡ depth + count (binder_row binders.now)) }
{
    match binders {
        Binders::End => Ok(depth),
        Binders::Plain { others, .. } | Binders::Typed { others, .. } => {
            behind_binders(more(depth, 1)?, others)
        }
    }
}

// Each method gives a part of a tree in which the names of written variables have their places
// among all variables, behind so many binders of the tree's own.
impl Places {
    #[cycle(renumbered)]
    #[tactic(auto, using(crate::proofs::RenumberedParts::parts))]
    pub fn node<'a>(
        &self,
        arena: &'a Bump,
        depth: u32,
        source: &'a Node<'a>,
    ) -> Result<&'a Node<'a>, MemoryError>
        ensures { IfOk result (λ node. node_tree node.now ≡ changed
            (renumbering (place_of self.now)) depth (node_tree source.now)) }
    {
        match *source {
            Node::Name(used) => {
                let node = Node::Name(Used {
                    path: used.path,
                    target: self.target(depth, used.target)?,
                    span: used.span,
                });
                placed(arena, node)
            }
            Node::Unknown(_)
            | Node::Number { .. }
            | Node::Text { .. }
            | Node::Type { .. }
            | Node::Hole { .. } => Ok(source),
            Node::The { ty, value, span } => {
                let node = Node::The {
                    ty: self.node(arena, depth, ty)?,
                    value: self.node(arena, depth, value)?,
                    span,
                };
                placed(arena, node)
            }
            Node::Apply {
                function,
                arguments,
                span,
            } => {
                let node = Node::Apply {
                    function: self.node(arena, depth, function)?,
                    arguments: self.arguments(arena, depth, arguments)?,
                    span,
                };
                placed(arena, node)
            }
            Node::Pi {
                mark,
                mult,
                name,
                domain,
                codomain,
                span,
            } => {
                let node = Node::Pi {
                    mark,
                    mult,
                    name,
                    domain: self.node(arena, depth, domain)?,
                    codomain: self.node(arena, more(depth, 1)?, codomain)?,
                    span,
                };
                placed(arena, node)
            }
            Node::Lambda {
                binders,
                body,
                span,
            } => {
                let node = Node::Lambda {
                    binders: self.binders(arena, depth, binders)?,
                    body: self.node(arena, behind_binders(depth, binders)?, body)?,
                    span,
                };
                placed(arena, node)
            }
            Node::Let {
                mult,
                name,
                ty,
                value,
                body,
                span,
            } => {
                let node = Node::Let {
                    mult,
                    name,
                    ty: self.annotation(arena, depth, ty)?,
                    value: self.node(arena, depth, value)?,
                    body: self.node(arena, more(depth, 1)?, body)?,
                    span,
                };
                placed(arena, node)
            }
            Node::Do { statements, span } => {
                let node = Node::Do {
                    statements: self.statements(arena, depth, statements)?,
                    span,
                };
                placed(arena, node)
            }
        }
    }

    #[cycle(renumbered)]
    #[tactic(auto, using(crate::proofs::RenumberedParts::parts))]
    fn annotation<'a>(
        &self,
        arena: &'a Bump,
        depth: u32,
        source: Annotation<'a>,
    ) -> Result<Annotation<'a>, MemoryError>
        ensures { IfOk result (λ ty. annotation_tree ty ≡ changed_annotation
            (renumbering (place_of self.now)) depth (annotation_tree source.entry)) }
    {
        match source {
            Annotation::Untyped => Ok(Annotation::Untyped),
            Annotation::Typed(ty) => Ok(Annotation::Typed(self.node(arena, depth, ty)?)),
        }
    }

    #[cycle(renumbered)]
    #[tactic(auto, using(crate::proofs::RenumberedParts::parts))]
    fn arguments<'a>(
        &self,
        arena: &'a Bump,
        depth: u32,
        source: &'a Arguments<'a>,
    ) -> Result<&'a Arguments<'a>, MemoryError>
        ensures { IfOk result (λ row. argument_row row.now ≡ changed_arguments
            (renumbering (place_of self.now)) depth (argument_row source.now)) }
    {
        let row = match *source {
            Arguments::End => Arguments::End,
            Arguments::More {
                mark,
                value,
                others,
            } => Arguments::More {
                mark,
                value: self.node(arena, depth, value)?,
                others: self.arguments(arena, depth, others)?,
            },
        };
        placed(arena, row)
    }

    #[cycle(renumbered)]
    #[tactic(auto, using(crate::proofs::RenumberedParts::parts))]
    fn binders<'a>(
        &self,
        arena: &'a Bump,
        depth: u32,
        source: &'a Binders<'a>,
    ) -> Result<&'a Binders<'a>, MemoryError>
        ensures { IfOk result (λ row. binder_row row.now ≡ changed_binders
            (renumbering (place_of self.now)) depth (binder_row source.now)) }
    {
        let row = match *source {
            Binders::End => Binders::End,
            Binders::Plain { name, others } => Binders::Plain {
                name,
                others: self.binders(arena, more(depth, 1)?, others)?,
            },
            Binders::Typed {
                mult,
                name,
                ty,
                span,
                others,
            } => Binders::Typed {
                mult,
                name,
                ty: self.node(arena, depth, ty)?,
                span,
                others: self.binders(arena, more(depth, 1)?, others)?,
            },
        };
        placed(arena, row)
    }

    #[cycle(renumbered)]
    #[tactic(auto, using(crate::proofs::RenumberedParts::parts))]
    fn statements<'a>(
        &self,
        arena: &'a Bump,
        depth: u32,
        source: &'a Statements<'a>,
    ) -> Result<&'a Statements<'a>, MemoryError>
        ensures { IfOk result (λ row. statement_row row.now ≡ changed_statements
            (renumbering (place_of self.now)) depth (statement_row source.now)) }
    {
        let row = match *source {
            Statements::End => Statements::End,
            Statements::Bind {
                name,
                value,
                others,
            } => Statements::Bind {
                name,
                value: self.node(arena, depth, value)?,
                others: self.statements(arena, more(depth, 1)?, others)?,
            },
            Statements::Let {
                mult,
                name,
                ty,
                value,
                span,
                others,
            } => Statements::Let {
                mult,
                name,
                ty: self.annotation(arena, depth, ty)?,
                value: self.node(arena, depth, value)?,
                span,
                others: self.statements(arena, more(depth, 1)?, others)?,
            },
            Statements::Run {
                value,
                span,
                others,
            } => Statements::Run {
                value: self.node(arena, depth, value)?,
                span,
                others: self.statements(arena, depth, others)?,
            },
        };
        placed(arena, row)
    }

    /// A pattern in which the names of written variables have their places.
    #[cycle(renumbered_shapes)]
    fn shape<'a>(&self, arena: &'a Bump, source: Shape<'a>) -> Result<Shape<'a>, MemoryError>
        ensures { IfOk result (λ shape. shape_tree shape ≡
            shape_renumbered (place_of self.now) (shape_tree source.entry)) }
    {
        match source {
            Shape::Variable { .. } | Shape::Wildcard { .. } => Ok(source),
            Shape::Constructor {
                mark,
                head,
                fields,
                span,
            } => Ok(Shape::Constructor {
                mark,
                head,
                fields: self.shapes(arena, fields)?,
                span,
            }),
            Shape::Dot { mark, value, span } => Ok(Shape::Dot {
                mark,
                value: self.node(arena, 0, value)?,
                span,
            }),
        }
    }

    /// Patterns in which the names of written variables have their places.
    #[cycle(renumbered_shapes)]
    pub fn shapes<'a>(
        &self,
        arena: &'a Bump,
        source: &'a Shapes<'a>,
    ) -> Result<&'a Shapes<'a>, MemoryError>
        ensures { IfOk result (λ row. shape_row row.now ≡
            shapes_renumbered (place_of self.now) (shape_row source.now)) }
    {
        match *source {
            Shapes::End => Ok(source),
            Shapes::More(first, rest) => {
                let first = self.shape(arena, first)?;
                let rest = self.shapes(arena, rest)?;
                placed(arena, Shapes::More(first, rest))
            }
        }
    }
}
