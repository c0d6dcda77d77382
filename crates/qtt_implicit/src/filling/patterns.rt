//! Patterns of a clause with what is filled in, and the text types of their variables.

ghost use Rattle.std.specs.Prelude.{◌≡◌, map, IfOk};
ghost use Rattle.qtt_syntax.specs.Tree.{arguments as arguments_of};
ghost use Rattle.qtt_implicit.specs.Columns.{columns_of};
ghost use Rattle.qtt_implicit.specs.KnownItems.{known_of};
ghost use Rattle.qtt_implicit.specs.Meeting.{Meets};
ghost use Rattle.qtt_implicit.specs.Moving.{unknown};
ghost use Rattle.qtt_implicit.specs.Nodes.{argument_row, node_tree, used_name};
ghost use Rattle.qtt_implicit.specs.Patterns.{fields_on, local_name as local_tree, put_pattern, signature_of as sig_of_target, walk_shape, walk_shapes, written_argument};
ghost use Rattle.qtt_implicit.specs.Seeing.{all_seen_of, applied_to, seen_of, tree_list};
ghost use Rattle.qtt_implicit.specs.Shaping.{shape_row, shape_tree};
ghost use Rattle.qtt_implicit.specs.TextTypes.{type_tree};
ghost use Rattle.qtt_implicit.specs.Variables.{met_of};

use super::applying::application;
use super::columns::Columns;
use super::left::Left;
use super::met::Met;
use super::shapes::{Shape, Shapes};
use super::stop::Stop;
use super::text_type::TextType;
use super::trees::{Arguments, Node, Used, placed};
use super::walking::Walk;
use crate::forgetting::numbers::is_inserted;
use bumpalo::Bump;
use qtt_base::{MemoryError, Name, Span};
use qtt_syntax::{Mark, Target};

/// Expressions that patterns stand for.
#[derive(Clone, Copy)]
pub(crate) enum Trees<'a> {
    End,
    More(&'a Node<'a>, &'a Trees<'a>),
}

/// A pattern, what it stands for as an expression, and what was met up to its end.
#[derive(Clone, Copy)]
pub(crate) struct Seen<'a> {
    pub shape: Shape<'a>,
    pub tree: &'a Node<'a>,
    pub met: Met<'a>,
}

/// The same of patterns from left to right.
#[derive(Clone, Copy)]
pub(crate) struct AllSeen<'a> {
    pub shapes: &'a Shapes<'a>,
    pub trees: &'a Trees<'a>,
    pub met: Met<'a>,
}

/// Expressions as the arguments of a constructor.
fn written_arguments<'a>(
    trees: &'a Trees<'a>,
    arena: &'a Bump,
) -> Result<&'a Arguments<'a>, MemoryError>
    ensures { IfOk result (λ r. argument_row r.now ≡ arguments_of
        (map written_argument (tree_list trees.now))) }
{
    match trees {
        Trees::End => placed(arena, Arguments::End),
        Trees::More(value, others) => {
            let others = written_arguments(others, arena)?;
            placed(
                arena,
                Arguments::More {
                    mark: Mark::Written,
                    value,
                    others,
                },
            )
        }
    }
}

/// The expression that a constructor pattern stands for.
fn constructed<'a>(
    arena: &'a Bump,
    head: Used<'a>,
    trees: &'a Trees<'a>,
    span: Span,
) -> Result<&'a Node<'a>, MemoryError>
    ensures { IfOk result (λ t. node_tree t.now ≡ applied_to (used_name head.entry)
        (tree_list trees.now) span) }
{
    let row = written_arguments(trees, arena)?;
    application(placed(arena, Node::Name(head))?, arena, row, span)
}

/// The name of a variable that a pattern binds.
fn local_name<'a>(
    arena: &'a Bump,
    number: u32,
    path: &'a Name,
    span: Span,
) -> Result<&'a Node<'a>, MemoryError>
    ensures { IfOk result (λ t. node_tree t.now ≡ local_tree number path.now span) }
{
    let used = Used {
        path,
        target: Target::Local(number),
        span,
    };
    placed(arena, Node::Name(used))
}

/// A pattern is put in, if it was not written.
fn put_in<'a>(mark: Mark, left: &mut Left) -> Result<(), Stop<'a>>
    ensures { Meets (λ _. tt) result (put_pattern mark left.old.nodes) left.new.nodes }
{
    if is_inserted(mark) {
        left.put(1)
    } else {
        left.put(0)
    }
}

impl<'k, 'a> Walk<'k, 'a> {
    /// The types of the fields of a constructor pattern on a column of this type.
    fn field_columns(&self, head: Used<'a>, ty: TextType<'a>) -> Result<Columns<'a>, MemoryError>
        ensures { IfOk result (λ cs. columns_of cs ≡ fields_on
            (sig_of_target (known_of self.now.known.now) head.entry.target)
            (type_tree ty.entry)) }
    {
        match self.known.signature_at(head.target) {
            None => Ok(Columns::Untold),
            Some(sig) => sig.fields_on(self.arena, ty),
        }
    }

    /// A pattern of a column of this type.
    #[cycle(seen)]
    fn shape(
        &self,
        source: Shape<'a>,
        met: Met<'a>,
        ty: TextType<'a>,
        left: &mut Left,
    ) -> Result<Seen<'a>, Stop<'a>>
        ensures { Meets seen_of result (walk_shape (known_of self.now.known.now)
            (met_of met.entry) (type_tree ty.entry) (shape_tree source.entry) left.old.nodes)
            left.new.nodes }
    {
        match source {
            Shape::Variable { mark, name, span } => {
                put_in(mark, left)?;
                Ok(Seen {
                    shape: source,
                    tree: local_name(self.arena, met.number(), name, span)?,
                    met: met.with(self.arena, ty)?,
                })
            }
            Shape::Wildcard { .. } => Ok(Seen {
                shape: source,
                tree: unknown_tree(self.arena)?,
                met,
            }),
            Shape::Dot { mark, value, span } => {
                let locals = met.all(self.arena)?;
                let value = self.node(value, locals, left)?;
                Ok(Seen {
                    shape: Shape::Dot {
                        mark,
                        value: value.tree,
                        span,
                    },
                    tree: value.tree,
                    met,
                })
            }
            Shape::Constructor {
                mark,
                head,
                fields,
                span,
            } => {
                let columns = self.field_columns(head, ty)?;
                let fields = self.shapes(fields, met, columns, left)?;
                Ok(Seen {
                    shape: Shape::Constructor {
                        mark,
                        head,
                        fields: fields.shapes,
                        span,
                    },
                    tree: constructed(self.arena, head, fields.trees, span)?,
                    met: fields.met,
                })
            }
        }
    }

    /// Patterns of these columns.
    #[cycle(seen)]
    pub fn shapes(
        &self,
        source: &'a Shapes<'a>,
        met: Met<'a>,
        columns: Columns<'a>,
        left: &mut Left,
    ) -> Result<AllSeen<'a>, Stop<'a>>
        ensures { Meets all_seen_of result (walk_shapes (known_of self.now.known.now)
            (met_of met.entry) (columns_of columns.entry) (shape_row source.now) left.old.nodes)
            left.new.nodes }
    {
        match *source {
            Shapes::End => Ok(AllSeen {
                shapes: source,
                trees: placed(self.arena, Trees::End)?,
                met,
            }),
            Shapes::More(first, others) => {
                let ty = columns.column_type(self.arena)?;
                let first = self.shape(first, met, ty, left)?;
                let columns = columns.next_columns(self.arena, first.tree)?;
                let others = self.shapes(others, first.met, columns, left)?;
                Ok(AllSeen {
                    shapes: placed(self.arena, Shapes::More(first.shape, others.shapes))?,
                    trees: placed(self.arena, Trees::More(first.tree, others.trees))?,
                    met: others.met,
                })
            }
        }
    }
}

/// The expression of a pattern of which nothing is known.
pub(crate) fn unknown_tree<'a>(arena: &'a Bump) -> Result<&'a Node<'a>, MemoryError>
    ensures { IfOk result (λ t. node_tree t.now ≡ unknown) }
{
    placed(
        arena,
        Node::Unknown(Span {
            line: 0,
            col: 0,
            len: 0,
        }),
    )
}
