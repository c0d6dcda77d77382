//! Families and signatures with what is filled in, and the own items that they add.

ghost use Rattle.std.specs.Prelude.{◌≡◌, ◌∷◌, [], map, IfOk, OnOk};
ghost use Rattle.qtt_implicit.specs.Filled.{constructor_sig as sig_of_constructor, definition_sig as sig_of_definition, family_sig as sig_of_family, own_con, walk_cons, walk_item, walk_params, with_own};
ghost use Rattle.qtt_implicit.specs.Growing.{Grows, params_of};
ghost use Rattle.qtt_implicit.specs.Items.{con_row, family_tree, item_tree, param_row, signature_tree};
ghost use Rattle.qtt_implicit.specs.KnownItems.{known_of};
ghost use Rattle.qtt_implicit.specs.Meeting.{Meets};
ghost use Rattle.qtt_implicit.specs.Nodes.{node_tree};
ghost use Rattle.qtt_implicit.specs.Signatures.{signature_of};
ghost use Rattle.qtt_implicit.specs.TextTypes.{local_types};

use super::items::{FamilyNode, ItemNode, SignatureNode};
use super::judging::behind_tree;
use super::known::Known;
use super::left::Left;
use super::parts::Locals;
use super::signature::Signature;
use super::signatures::{ConRow, ParamRow, behind_params, brace_count, param_count};
use super::stop::Stop;
use super::trees::{Node, placed};
use super::walking::{Literals, Walk};
use bumpalo::Bump;
use qtt_base::{MemoryError, Name};
use std::alloc::Global;

/// Parameters of a family, and the local names behind them.
#[derive(Clone, Copy)]
pub(crate) struct Params<'a> {
    pub params: &'a ParamRow<'a>,
    pub locals: &'a Locals<'a>,
}

/// The signature of a family.
fn family_sig<'a>(
    arena: &'a Bump,
    params: &ParamRow<'a>,
    ty: &'a Node<'a>,
) -> Result<Signature<'a>, MemoryError>
    ensures { IfOk result (λ s. signature_of s ≡ sig_of_family (param_row params.now)
        (node_tree ty.now)) }
{
    Ok(Signature {
        braces: 0,
        params: 0,
        ty: behind_params(arena, params, ty)?,
    })
}

/// The signature of a constructor of a family with these parameters.
fn constructor_sig<'a>(
    arena: &'a Bump,
    params: &ParamRow<'a>,
    ty: &'a Node<'a>,
) -> Result<Signature<'a>, MemoryError>
    ensures { IfOk result (λ s. signature_of s ≡ sig_of_constructor (param_row params.now)
        (node_tree ty.now)) }
{
    Ok(Signature {
        braces: brace_count(ty)?,
        params: param_count(params)?,
        ty: behind_params(arena, params, ty)?,
    })
}

/// The signature of a definition.
fn definition_sig<'a>(ty: &'a Node<'a>) -> Result<Signature<'a>, MemoryError>
    ensures { IfOk result (λ s. signature_of s ≡ sig_of_definition (node_tree ty.now)) }
{
    Ok(Signature {
        braces: brace_count(ty)?,
        params: 0,
        ty,
    })
}

impl<'a> Known<'a> {
    /// One more own item.
    fn push(&mut self, name: &'a Name, sig: Signature<'a>) -> Result<(), MemoryError>
        ensures { OnOk result (known_of self.new ≡
            with_own ((name.now, signature_of sig.entry) ∷ []) (known_of self.old)) }
    {
        self.own.push(name, sig)
    }

    /// The constructors of a family with these parameters.
    fn push_constructors(
        &mut self,
        row: &'a ConRow<'a>,
        arena: &'a Bump,
        params: &'a ParamRow<'a>,
    ) -> Result<(), MemoryError>
        ensures { OnOk result (known_of self.new ≡
            with_own (map (own_con (param_row params.now)) (con_row row.now))
            (known_of self.old)) }
    {
        match row {
            ConRow::End => Ok(()),
            ConRow::More { source, ty, others } => {
                self.push(&source.name, constructor_sig(arena, params, ty)?)?;
                self.push_constructors(others, arena, params)
            }
        }
    }
}

impl<'k, 'a> Walk<'k, 'a> {
    /// The parameters of a family.
    fn params(
        &self,
        source: &'a ParamRow<'a>,
        locals: &'a Locals<'a>,
        left: &mut Left,
    ) -> Result<Params<'a>, Stop<'a>>
        ensures { Meets params_of result (walk_params (known_of self.now.known.now)
            (local_types locals.now) (param_row source.now) left.old.nodes) left.new.nodes }
    {
        match *source {
            ParamRow::End => Ok(Params {
                params: source,
                locals,
            }),
            ParamRow::More { source, ty, others } => {
                let ty = self.node(ty, locals, left)?;
                let inner = behind_tree(self.arena, ty.tree, locals)?;
                let others = self.params(others, inner, left)?;
                let row = ParamRow::More {
                    source,
                    ty: ty.tree,
                    others: others.params,
                };
                Ok(Params {
                    params: placed(self.arena, row)?,
                    locals: others.locals,
                })
            }
        }
    }

    /// The constructors of a family.
    fn constructors(
        &self,
        source: &'a ConRow<'a>,
        locals: &'a Locals<'a>,
        left: &mut Left,
    ) -> Result<&'a ConRow<'a>, Stop<'a>>
        ensures { Meets (λ cs. con_row cs.now) result (walk_cons (known_of self.now.known.now)
            (local_types locals.now) (con_row source.now) left.old.nodes) left.new.nodes }
    {
        match *source {
            ConRow::End => Ok(source),
            ConRow::More { source, ty, others } => {
                let ty = self.node(ty, locals, left)?;
                let others = self.constructors(others, locals, left)?;
                let row = ConRow::More {
                    source,
                    ty: ty.tree,
                    others,
                };
                Ok(placed(self.arena, row)?)
            }
        }
    }
}

/// What the items of a text are walked with.
#[derive(Clone, Copy)]
pub(crate) struct Tools<'a> {
    pub alloc: Global,
    pub arena: &'a Bump,
    pub literals: &'a Literals,
}

impl<'a> Tools<'a> {
    fn walk<'k>(self, known: &'k Known<'a>) -> Walk<'k, 'a>
        ensures { known_of result.known.now ≡ known_of known.now }
    {
        Walk {
            known,
            arena: self.arena,
            literals: self.literals,
        }
    }

    /// A family.
    fn family(
        self,
        known: &mut Known<'a>,
        source: FamilyNode<'a>,
        left: &mut Left,
    ) -> Result<FamilyNode<'a>, Stop<'a>>
        ensures { Grows family_tree (known_of known.old) result (known_of known.new) (walk_item
            (known_of known.old) (family_tree source.entry) left.old.nodes) left.new.nodes }
    {
        let text = source.source;
        let none = placed(self.arena, Locals::End)?;
        let params = self.walk(known).params(source.params, none, left)?;
        let ty = self.walk(known).node(source.ty, params.locals, left)?;
        known.push(&text.name, family_sig(self.arena, params.params, ty.tree)?)?;
        let constructors = self
            .walk(known)
            .constructors(source.constructors, params.locals, left)?;
        known.push_constructors(constructors, self.arena, params.params)?;
        Ok(FamilyNode {
            source: text,
            params: params.params,
            ty: ty.tree,
            constructors,
        })
    }

    /// A signature.
    fn signature(
        self,
        known: &mut Known<'a>,
        source: SignatureNode<'a>,
        left: &mut Left,
    ) -> Result<SignatureNode<'a>, Stop<'a>>
        ensures { Grows signature_tree (known_of known.old) result (known_of known.new) (walk_item
            (known_of known.old) (signature_tree source.entry) left.old.nodes) left.new.nodes }
    {
        let text = source.source;
        let none = placed(self.arena, Locals::End)?;
        let ty = self.walk(known).node(source.ty, none, left)?;
        known.push(&text.name, definition_sig(ty.tree)?)?;
        Ok(SignatureNode {
            source: text,
            ty: ty.tree,
        })
    }

    /// An item, and the own items that it adds.
    pub fn item(
        self,
        known: &mut Known<'a>,
        source: ItemNode<'a>,
        left: &mut Left,
    ) -> Result<ItemNode<'a>, Stop<'a>>
        ensures { Grows item_tree (known_of known.old) result (known_of known.new) (walk_item
            (known_of known.old) (item_tree source.entry) left.old.nodes) left.new.nodes }
    {
        match source {
            ItemNode::Family(family) => Ok(ItemNode::Family(self.family(known, family, left)?)),
            ItemNode::Signature(signature) => Ok(ItemNode::Signature(self.signature(
                known, signature, left,
            )?)),
            ItemNode::Clause(clause) => Ok(ItemNode::Clause(
                self.walk(known).clause(self.alloc, clause, left)?,
            )),
        }
    }
}
