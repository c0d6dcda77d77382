//! Items in the arena: how they are read, counted and written.

ghost use Rattle.std.specs.Prelude.{◌≡◌, ◌++◌, map, min, IfOk};
ghost use Rattle.qtt_syntax.specs.View.{param_of, con_of, item_of};
ghost use Rattle.qtt_implicit.specs.Filled.{item_nodes as nodes_in_item, place_of as place_of_item};
ghost use Rattle.qtt_implicit.specs.Items.{param_row, con_row, family_tree, signature_tree, clause_tree, item_tree, params_nodes, constructors_nodes};

use super::counting::{nodes, shapes_nodes, sum};
use super::reading::read;
use super::shapes::{Shapes, read_shapes, with_shapes};
use super::signatures::{ConRow, ParamRow};
use super::trees::{Node, placed};
use super::writing::written;
use bumpalo::Bump;
use qtt_base::{MemoryError, Span};
use qtt_syntax::{Clause, ConDecl, FamilyDecl, Item, Param, SignatureDecl};
use std::alloc::Global;

/// A family in the arena, with the text's own.
#[derive(Clone, Copy)]
pub(crate) struct FamilyNode<'a> {
    pub source: &'a FamilyDecl,
    pub params: &'a ParamRow<'a>,
    pub ty: &'a Node<'a>,
    pub constructors: &'a ConRow<'a>,
}

/// A signature in the arena, with the text's own.
#[derive(Clone, Copy)]
pub(crate) struct SignatureNode<'a> {
    pub source: &'a SignatureDecl,
    pub ty: &'a Node<'a>,
}

/// A clause in the arena, with the text's own.
#[derive(Clone, Copy)]
pub(crate) struct ClauseNode<'a> {
    pub source: &'a Clause,
    pub patterns: &'a Shapes<'a>,
    pub side: &'a Node<'a>,
}

/// An item in the arena.
#[derive(Clone, Copy)]
pub(crate) enum ItemNode<'a> {
    Family(FamilyNode<'a>),
    Signature(SignatureNode<'a>),
    Clause(ClauseNode<'a>),
}

fn read_params<'a>(arena: &'a Bump, source: &'a [Param]) -> Result<&'a ParamRow<'a>, MemoryError>
    ensures { IfOk result (λ row. param_row row.now ≡ map param_of source.now) }
{
    let mut row: &'a ParamRow<'a> = placed(arena, ParamRow::End)?;
    for index in (0..source.len()).rev() {
        let first = &source[index];
        let cell = ParamRow::More {
            source: first,
            ty: read(arena, &first.ty)?,
            others: row,
        };
        row = placed(arena, cell)?;
    }
    Ok(row)
}

fn read_constructors<'a>(
    arena: &'a Bump,
    source: &'a [ConDecl],
) -> Result<&'a ConRow<'a>, MemoryError>
    ensures { IfOk result (λ row. con_row row.now ≡ map con_of source.now) }
{
    let mut row: &'a ConRow<'a> = placed(arena, ConRow::End)?;
    for index in (0..source.len()).rev() {
        let first = &source[index];
        let cell = ConRow::More {
            source: first,
            ty: read(arena, &first.ty)?,
            others: row,
        };
        row = placed(arena, cell)?;
    }
    Ok(row)
}

/// An item, read into the arena.
#[tactic(auto, using(crate::proofs::ForgottenParts::listed))]
pub(crate) fn read_item<'a>(arena: &'a Bump, source: &'a Item) -> Result<ItemNode<'a>, MemoryError>
    ensures { IfOk result (λ item. item_tree item ≡ item_of source.now) }
{
    match source {
        Item::Family(family) => Ok(ItemNode::Family(FamilyNode {
            source: family,
            params: read_params(arena, &family.params)?,
            ty: read(arena, &family.ty)?,
            constructors: read_constructors(arena, &family.constructors)?,
        })),
        Item::Signature(signature) => Ok(ItemNode::Signature(SignatureNode {
            source: signature,
            ty: read(arena, &signature.ty)?,
        })),
        Item::Clause(clause) => Ok(ItemNode::Clause(ClauseNode {
            source: clause,
            patterns: read_shapes(arena, &clause.patterns)?,
            side: read(arena, &clause.side)?,
        })),
    }
}

fn param_nodes(row: &ParamRow<'_>) -> u64
    ensures { result ≡ min (params_nodes (param_row row.now)) 1000001 }
{
    match row {
        ParamRow::End => 0,
        ParamRow::More { ty, others, .. } => sum(nodes(ty), param_nodes(others)),
    }
}

fn constructor_nodes(row: &ConRow<'_>) -> u64
    ensures { result ≡ min (constructors_nodes (con_row row.now)) 1000001 }
{
    match row {
        ConRow::End => 0,
        ConRow::More { ty, others, .. } => sum(nodes(ty), constructor_nodes(others)),
    }
}

/// The nodes of an item.
#[tactic(auto, using(crate::proofs::SpendingItems::listed_nodes))]
pub(crate) fn item_nodes(item: &ItemNode<'_>) -> u64
    ensures { result ≡ min (nodes_in_item (item_tree item.now)) 1000001 }
{
    match item {
        ItemNode::Family(family) => sum(
            param_nodes(family.params),
            sum(nodes(family.ty), constructor_nodes(family.constructors)),
        ),
        ItemNode::Signature(signature) => nodes(signature.ty),
        ItemNode::Clause(clause) => sum(shapes_nodes(clause.patterns), nodes(clause.side)),
    }
}

/// Where an item stands.
pub(crate) fn place_of(item: &ItemNode<'_>) -> Span
    ensures { result ≡ place_of_item (item_tree item.now) }
{
    match item {
        ItemNode::Family(family) => family.source.span,
        ItemNode::Signature(signature) => signature.source.span,
        ItemNode::Clause(clause) => clause.source.span,
    }
}

/// Parameters behind others.
fn with_params(
    source: &ParamRow<'_>,
    alloc: Global,
    mut done: Vec<Param>,
) -> Result<Vec<Param>, MemoryError>
    ensures { IfOk result (λ row.
        map param_of row.items ≡ map param_of done.items ++ param_row source.now) }
{
    match source {
        ParamRow::End => Ok(done),
        ParamRow::More { source, ty, others } => {
            done.push(Param {
                mult: source.mult,
                name: source.name.copy()?,
                ty: written(alloc, ty)?,
                span: source.span,
            })?;
            with_params(others, alloc, done)
        }
    }
}

/// Constructors behind others.
fn with_constructors(
    source: &ConRow<'_>,
    alloc: Global,
    mut done: Vec<ConDecl>,
) -> Result<Vec<ConDecl>, MemoryError>
    ensures { IfOk result (λ row.
        map con_of row.items ≡ map con_of done.items ++ con_row source.now) }
{
    match source {
        ConRow::End => Ok(done),
        ConRow::More { source, ty, others } => {
            done.push(ConDecl {
                name: source.name.copy()?,
                ty: written(alloc, ty)?,
                span: source.span,
            })?;
            with_constructors(others, alloc, done)
        }
    }
}

fn written_family(alloc: Global, family: &FamilyNode<'_>) -> Result<Item, MemoryError>
    ensures { IfOk result (λ item. item_of item ≡ family_tree family.now) }
{
    let source = family.source;
    let params = with_params(family.params, alloc, Vec::new(alloc))?;
    let constructors = with_constructors(family.constructors, alloc, Vec::new(alloc))?;
    Ok(Item::Family(FamilyDecl {
        name: source.name.copy()?,
        name_span: source.name_span,
        params,
        ty: written(alloc, family.ty)?,
        constructors,
        span: source.span,
    }))
}

fn written_signature(alloc: Global, signature: &SignatureNode<'_>) -> Result<Item, MemoryError>
    ensures { IfOk result (λ item. item_of item ≡ signature_tree signature.now) }
{
    let source = signature.source;
    Ok(Item::Signature(SignatureDecl {
        partial: source.partial,
        mult: source.mult,
        name: source.name.copy()?,
        name_span: source.name_span,
        ty: written(alloc, signature.ty)?,
        span: source.span,
    }))
}

fn written_clause(alloc: Global, clause: &ClauseNode<'_>) -> Result<Item, MemoryError>
    ensures { IfOk result (λ item. item_of item ≡ clause_tree clause.now) }
{
    let source = clause.source;
    let patterns = with_shapes(clause.patterns, alloc, Vec::new(alloc))?;
    Ok(Item::Clause(Clause {
        name: source.name.copy()?,
        patterns,
        side: written(alloc, clause.side)?,
        span: source.span,
    }))
}

/// The item that stands in the arena, written.
pub(crate) fn written_item(alloc: Global, item: &ItemNode<'_>) -> Result<Item, MemoryError>
    ensures { IfOk result (λ written. item_of written ≡ item_tree item.now) }
{
    match item {
        ItemNode::Family(family) => written_family(alloc, family),
        ItemNode::Signature(signature) => written_signature(alloc, signature),
        ItemNode::Clause(clause) => written_clause(alloc, clause),
    }
}
