//! Copies of trees.

ghost use Rattle.std.specs.Prelude.{◌≡◌, IfOk};
ghost use Rattle.qtt_syntax.specs.declared.expr.Named.{Named};
ghost use Rattle.qtt_syntax.specs.Tree.Tree.{name};
ghost use Rattle.qtt_implicit.specs.Moving.{changed, shifted, unknown};
ghost use Rattle.qtt_implicit.specs.Nodes.{annotation_tree, argument_row, binder_row, bound_name, node_tree, statement_row, used_name};
ghost use Rattle.qtt_implicit.specs.Slots.{beyond as beyond_slots, moving, slot_list, stands};
ghost use Rattle.qtt_implicit.specs.Copies.{IsWithin, copied, copied_annotation, copied_arguments, copied_binders, copied_statements, found_tree, placing, span_at};
ghost use Rattle.qtt_implicit.specs.declared.filling.slots.Rest as rest_code;

use crate::filling::copying::{Copying, Found};
use crate::filling::slots::{Rest, Slots};
use crate::filling::trees::{
    Annotation, Arguments, Binders, Bound, Node, Statements, Used, deeper, inside, placed,
};
use crate::filling::weighing::behind;
use qtt_base::{MemoryError, Span};
use qtt_syntax::Target;

/// The place of what stands in no text.
const NOWHERE: Span = Span {
    line: 0,
    col: 0,
    len: 0,
};

/// What is found at the slot of a free local name.
pub fn found<'a>(slots: &'a Slots<'a>, index: u32) -> Found<'a>
    ensures stands { (r : rest_code.Rest) (n : Named) →
        stands r (slot_list slots.now) index n ≡ found_tree r n result }
    ensures within { IsWithin slots.now result }
{
    match slots {
        Slots::End => Found::Beyond(index),
        Slots::Empty(older) => match index.checked_sub(1) {
            None => Found::Empty,
            Some(index) => found(older, index),
        },
        Slots::Filled { text, older, .. } => match index.checked_sub(1) {
            None => Found::Text(*text),
            Some(index) => found(older, index),
        },
    }
}

impl<'a> Copying<'a> {
    fn put(&self, node: Node<'a>) -> Result<&'a Node<'a>, MemoryError>
        ensures { IfOk result (λ t. t.now ≡ node.entry) }
    {
        placed(self.arena, node)
    }

    fn place(&self, span: Span) -> Span
        ensures { result ≡ span_at self.now.place span }
    {
        self.place.unwrap_or(span)
    }

    fn bound(&self, source: Bound<'a>) -> Bound<'a>
        ensures { bound_name result ≡ record {
          name = source.entry.name.now;
          span = span_at self.now.place source.entry.span;
        } }
    {
        Bound {
            name: source.name,
            span: self.place(source.span),
        }
    }

    /// A used name that stays, but for its number.
    fn kept_name(&self, source: Used<'a>, target: Target) -> Result<&'a Node<'a>, MemoryError>
        ensures { IfOk result (λ t. node_tree t.now ≡ name (record {
          path = source.entry.path.now;
          target = target;
          span = span_at self.now.place source.entry.span;
        })) }
    {
        placed(
            self.arena,
            Node::Name(Used {
                path: source.path,
                target,
                span: self.place(source.span),
            }),
        )
    }

    fn unknown(&self) -> Result<&'a Node<'a>, MemoryError>
        ensures { IfOk result (λ t. node_tree t.now ≡ changed (placing self.now.place) 0 unknown) }
    {
        placed(self.arena, Node::Unknown(self.place(NOWHERE)))
    }

    /// A used name beyond the slots.
    fn beyond(&self, source: Used<'a>, index: u32, depth: u32) -> Result<&'a Node<'a>, MemoryError>
        ensures { IfOk result (λ t. node_tree t.now ≡ changed (placing self.now.place) depth
            (changed (moving self.now.moved) depth (shifted depth
            (beyond_slots self.now.rest index (used_name source.entry))))) }
    {
        match self.rest {
            Rest::Unknown => self.unknown(),
            Rest::Outer(by) => {
                let index = deeper(deeper(index, by)?, deeper(depth, self.moved)?)?;
                self.kept_name(source, Target::Local(index))
            }
        }
    }

    /// A used name behind so many binders of the tree's own.
    #[cycle(copied)]
    fn used(&self, source: Used<'a>, depth: u32) -> Result<&'a Node<'a>, MemoryError>
        ensures { IfOk result (λ t. node_tree t.now ≡ copied self.now depth
            (name (used_name source.entry))) }
    {
        match source.target {
            Target::Unknown | Target::Global(_) => self.kept_name(source, source.target),
            Target::Local(index) => match index.checked_sub(depth) {
                None => self.kept_name(source, source.target),
                Some(index) => match found(self.slots, index) {
                    Found::Empty => self.unknown(),
                    Found::Beyond(index) => self.beyond(source, index, depth),
                    Found::Text(text) => {
                        let copying = Copying {
                            arena: self.arena,
                            slots: text.slots,
                            rest: text.rest,
                            moved: deeper(text.moved, deeper(depth, self.moved)?)?,
                            place: self.place,
                        };
                        copying.node(text.tree, 0)
                    }
                },
            },
        }
    }

    /// A tree behind so many binders of its own.
    #[cycle(copied)]
    pub fn node(&self, source: &'a Node<'a>, depth: u32) -> Result<&'a Node<'a>, MemoryError>
        ensures { IfOk result (λ t. node_tree t.now ≡ copied self.now depth
            (node_tree source.now)) }
    {
        match source {
            Node::Unknown(span) => self.put(Node::Unknown(self.place(*span))),
            Node::Name(used) => self.used(*used, depth),
            Node::Number { value, span } => self.put(Node::Number {
                value: *value,
                span: self.place(*span),
            }),
            Node::Text { value, span } => self.put(Node::Text {
                value,
                span: self.place(*span),
            }),
            Node::Type {
                level,
                level_span,
                span,
            } => self.put(Node::Type {
                level: *level,
                level_span: self.place(*level_span),
                span: self.place(*span),
            }),
            Node::Hole { name, span } => self.put(Node::Hole {
                name,
                span: self.place(*span),
            }),
            Node::The { ty, value, span } => {
                let ty = self.node(ty, depth)?;
                let value = self.node(value, depth)?;
                self.put(Node::The {
                    ty,
                    value,
                    span: self.place(*span),
                })
            }
            Node::Apply {
                function,
                arguments,
                span,
            } => {
                let function = self.node(function, depth)?;
                let arguments = self.arguments(arguments, depth)?;
                self.put(Node::Apply {
                    function,
                    arguments,
                    span: self.place(*span),
                })
            }
            Node::Pi {
                mark,
                mult,
                name,
                domain,
                codomain,
                span,
            } => {
                let domain = self.node(domain, depth)?;
                let codomain = self.node(codomain, inside(depth)?)?;
                self.put(Node::Pi {
                    mark: *mark,
                    mult: *mult,
                    name,
                    domain,
                    codomain,
                    span: self.place(*span),
                })
            }
            Node::Lambda {
                binders,
                body,
                span,
            } => {
                let row = self.binders(binders, depth)?;
                let body = self.node(body, behind(binders, depth)?)?;
                self.put(Node::Lambda {
                    binders: row,
                    body,
                    span: self.place(*span),
                })
            }
            Node::Let {
                mult,
                name,
                ty,
                value,
                body,
                span,
            } => {
                let ty = self.annotation(*ty, depth)?;
                let value = self.node(value, depth)?;
                let body = self.node(body, inside(depth)?)?;
                self.put(Node::Let {
                    mult: *mult,
                    name: self.bound(*name),
                    ty,
                    value,
                    body,
                    span: self.place(*span),
                })
            }
            Node::Do { statements, span } => {
                let statements = self.statements(statements, depth)?;
                self.put(Node::Do {
                    statements,
                    span: self.place(*span),
                })
            }
        }
    }

    #[cycle(copied)]
    fn annotation(&self, source: Annotation<'a>, depth: u32) -> Result<Annotation<'a>, MemoryError>
        ensures { IfOk result (λ t. annotation_tree t ≡ copied_annotation self.now depth
            (annotation_tree source.entry)) }
    {
        match source {
            Annotation::Untyped => Ok(Annotation::Untyped),
            Annotation::Typed(ty) => Ok(Annotation::Typed(self.node(ty, depth)?)),
        }
    }

    #[cycle(copied)]
    fn arguments(
        &self,
        source: &'a Arguments<'a>,
        depth: u32,
    ) -> Result<&'a Arguments<'a>, MemoryError>
        ensures { IfOk result (λ xs. argument_row xs.now ≡ copied_arguments self.now depth
            (argument_row source.now)) }
    {
        match source {
            Arguments::End => placed(self.arena, Arguments::End),
            Arguments::More {
                mark,
                value,
                others,
            } => {
                let value = self.node(value, depth)?;
                let others = self.arguments(others, depth)?;
                placed(
                    self.arena,
                    Arguments::More {
                        mark: *mark,
                        value,
                        others,
                    },
                )
            }
        }
    }

    #[cycle(copied)]
    fn binders(&self, source: &'a Binders<'a>, depth: u32) -> Result<&'a Binders<'a>, MemoryError>
        ensures { IfOk result (λ bs. binder_row bs.now ≡ copied_binders self.now depth
            (binder_row source.now)) }
    {
        match source {
            Binders::End => placed(self.arena, Binders::End),
            Binders::Plain { name, others } => {
                let others = self.binders(others, inside(depth)?)?;
                placed(
                    self.arena,
                    Binders::Plain {
                        name: self.bound(*name),
                        others,
                    },
                )
            }
            Binders::Typed {
                mult,
                name,
                ty,
                span,
                others,
            } => {
                let ty = self.node(ty, depth)?;
                let others = self.binders(others, inside(depth)?)?;
                placed(
                    self.arena,
                    Binders::Typed {
                        mult: *mult,
                        name: self.bound(*name),
                        ty,
                        span: self.place(*span),
                        others,
                    },
                )
            }
        }
    }

    #[cycle(copied)]
    fn statements(
        &self,
        source: &'a Statements<'a>,
        depth: u32,
    ) -> Result<&'a Statements<'a>, MemoryError>
        ensures { IfOk result (λ ss. statement_row ss.now ≡ copied_statements self.now depth
            (statement_row source.now)) }
    {
        match source {
            Statements::End => placed(self.arena, Statements::End),
            Statements::Bind {
                name,
                value,
                others,
            } => {
                let value = self.node(value, depth)?;
                let others = self.statements(others, deeper(depth, 1)?)?;
                placed(
                    self.arena,
                    Statements::Bind {
                        name: self.bound(*name),
                        value,
                        others,
                    },
                )
            }
            Statements::Let {
                mult,
                name,
                ty,
                value,
                span,
                others,
            } => {
                let ty = self.annotation(*ty, depth)?;
                let value = self.node(value, depth)?;
                let others = self.statements(others, deeper(depth, 1)?)?;
                placed(
                    self.arena,
                    Statements::Let {
                        mult: *mult,
                        name: self.bound(*name),
                        ty,
                        value,
                        span: self.place(*span),
                        others,
                    },
                )
            }
            Statements::Run {
                value,
                span,
                others,
            } => {
                let value = self.node(value, depth)?;
                let others = self.statements(others, depth)?;
                placed(
                    self.arena,
                    Statements::Run {
                        value,
                        span: self.place(*span),
                        others,
                    },
                )
            }
        }
    }
}
