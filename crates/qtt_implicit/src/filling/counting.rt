//! Nodes of trees and of patterns, counted up to one above the limit.

ghost use Rattle.std.specs.Prelude.{◌≡◌, ◌+◌, min};
ghost use Rattle.qtt_implicit.specs.Moving.{nodes as nodes_of};
ghost use Rattle.qtt_implicit.specs.Patterns.{shape_nodes as nodes_in_shape, shapes_nodes as nodes_in_shapes};
ghost use Rattle.qtt_implicit.specs.Counting.{annotation_nodes as nodes_in_annotation, arguments_nodes, binders_nodes, statements_nodes};
ghost use Rattle.qtt_implicit.specs.Nodes.{node_tree, annotation_tree, argument_row, binder_row, statement_row};
ghost use Rattle.qtt_implicit.specs.Shaping.{shape_tree, shape_row};

use super::shapes::{Shape, Shapes};
use super::trees::{Annotation, Arguments, Binders, Node, Statements};

/// One above the most nodes that an item may have.
const MOST_COUNTED: u64 = 1_000_001;

/// Both together.
pub(crate) fn sum(one: u64, other: u64) -> u64
    ensures { result ≡ min (one + other) 1000001 }
{
    one.saturating_add(other).min(MOST_COUNTED)
}

/// The nodes of a tree.
#[cycle(nodes)]
pub(crate) fn nodes(node: &Node<'_>) -> u64
    ensures { result ≡ min (nodes_of (node_tree node.now)) 1000001 }
{
    match node {
        Node::Unknown(_)
        | Node::Name(_)
        | Node::Number { .. }
        | Node::Text { .. }
        | Node::Type { .. }
        | Node::Hole { .. } => 1,
        Node::The { ty, value, .. } => sum(1, sum(nodes(ty), nodes(value))),
        Node::Apply {
            function,
            arguments,
            ..
        } => sum(1, sum(nodes(function), argument_nodes(arguments))),
        Node::Pi {
            domain,
            codomain,
            ..
        } => sum(1, sum(nodes(domain), nodes(codomain))),
        Node::Lambda { binders, body, .. } => sum(1, sum(binder_nodes(binders), nodes(body))),
        Node::Let {
            ty,
            value,
            body,
            ..
        } => sum(1, sum(annotation_nodes(ty), sum(nodes(value), nodes(body)))),
        Node::Do { statements, .. } => sum(1, statement_nodes(statements)),
    }
}

#[cycle(nodes)]
fn annotation_nodes(ty: &Annotation<'_>) -> u64
    ensures { result ≡ min (nodes_in_annotation (annotation_tree ty.now)) 1000001 }
{
    match ty {
        Annotation::Untyped => 0,
        Annotation::Typed(ty) => nodes(ty),
    }
}

#[cycle(nodes)]
fn argument_nodes(row: &Arguments<'_>) -> u64
    ensures { result ≡ min (arguments_nodes (argument_row row.now)) 1000001 }
{
    match row {
        Arguments::End => 0,
        Arguments::More { value, others, .. } => sum(nodes(value), argument_nodes(others)),
    }
}

#[cycle(nodes)]
fn binder_nodes(row: &Binders<'_>) -> u64
    ensures { result ≡ min (binders_nodes (binder_row row.now)) 1000001 }
{
    match row {
        Binders::End => 0,
        Binders::Plain { others, .. } => binder_nodes(others),
        Binders::Typed { ty, others, .. } => sum(nodes(ty), binder_nodes(others)),
    }
}

#[cycle(nodes)]
fn statement_nodes(row: &Statements<'_>) -> u64
    ensures { result ≡ min (statements_nodes (statement_row row.now)) 1000001 }
{
    match row {
        Statements::End => 0,
        Statements::Bind { value, others, .. } | Statements::Run { value, others, .. } => {
            sum(nodes(value), statement_nodes(others))
        }
        Statements::Let {
            ty,
            value,
            others,
            ..
        } => sum(
            sum(annotation_nodes(ty), nodes(value)),
            statement_nodes(others),
        ),
    }
}

/// The nodes of a pattern: each pattern is one, and each expression in a dot pattern.
#[cycle(shape_nodes)]
fn shape_nodes(shape: &Shape<'_>) -> u64
    ensures { result ≡ min (nodes_in_shape (shape_tree shape.now)) 1000001 }
{
    match shape {
        Shape::Variable { .. } | Shape::Wildcard { .. } => 1,
        Shape::Constructor { fields, .. } => sum(1, shapes_nodes(fields)),
        Shape::Dot { value, .. } => sum(1, nodes(value)),
    }
}

/// The nodes of patterns.
#[cycle(shape_nodes)]
pub(crate) fn shapes_nodes(row: &Shapes<'_>) -> u64
    ensures { result ≡ min (nodes_in_shapes (shape_row row.now)) 1000001 }
{
    match row {
        Shapes::End => 0,
        Shapes::More(first, others) => sum(shape_nodes(first), shapes_nodes(others)),
    }
}
