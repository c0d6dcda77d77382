//! What a free local name stands for.

ghost use Rattle.std.specs.Prelude.{◌≡◌, IfOk};
ghost use Rattle.qtt_syntax.specs.declared.expr.Named.{Named};
ghost use Rattle.qtt_implicit.specs.Moving.{shifted};
ghost use Rattle.qtt_implicit.specs.Nodes.{node_tree};
ghost use Rattle.qtt_implicit.specs.Slots.{IsSound, Resolves, local_of, shared_tree, slot_list, stands, weight_of};
ghost use Rattle.qtt_implicit.specs.declared.filling.slots.Rest as rest_code;

use crate::filling::slots::{Shared, Slots};
use crate::filling::trees::{Node, deeper};
use crate::filling::weighing::weigh;
use crate::filling::weights::Weight;
use qtt_base::MemoryError;
use qtt_syntax::Target;

impl<'a> Node<'a> {
    /// The number of a local name.
    pub fn local(&self) -> Option<u32>
        ensures { result ≡ local_of (node_tree self.now) }
    {
        match self {
            Node::Name(used) => match used.target {
                Target::Local(index) => Some(index),
                Target::Global(_) | Target::Unknown => None,
            },
            _ => None,
        }
    }
}

/// What fills the slot of a free local name, down to what is no name of a filled slot. None where
/// the slot is not filled.
pub fn standing<'a>(
    slots: &'a Slots<'a>,
    index: u32,
    moved: u32,
) -> Result<Option<Shared<'a>>, MemoryError>
    requires { IsSound slots.now }
    ensures { (r : rest_code.Rest) (n : Named) →
        IfOk result (Resolves (shifted moved (stands r (slot_list slots.now) index n))) }
{
    match slots {
        Slots::End => Ok(None),
        Slots::Empty(older) => match index.checked_sub(1) {
            None => Ok(None),
            Some(index) => standing(older, index, moved),
        },
        Slots::Filled { text, older, .. } => match index.checked_sub(1) {
            Some(index) => standing(older, index, moved),
            None => {
                let text = Shared {
                    tree: text.tree,
                    slots: text.slots,
                    rest: text.rest,
                    moved: deeper(text.moved, moved)?,
                };
                match text.tree.local() {
                    None => Ok(Some(text)),
                    Some(index) => match standing(text.slots, index, text.moved)? {
                        None => Ok(Some(text)),
                        Some(text) => Ok(Some(text)),
                    },
                }
            }
        },
    }
}

impl<'a> Shared<'a> {
    /// The same, where its tree is no name of a filled slot.
    pub fn resolved(self) -> Result<Shared<'a>, MemoryError>
        requires { IsSound self.slots.now }
        ensures { IfOk result (λ s. Resolves (shared_tree self.entry) (Some s)) }
    {
        match self.tree.local() {
            None => Ok(self),
            Some(index) => match standing(self.slots, index, self.moved)? {
                None => Ok(self),
                Some(text) => Ok(text),
            },
        }
    }

    /// Its weight.
    pub fn weight(self) -> Result<Weight, MemoryError>
        requires { IsSound self.slots.now }
        ensures { IfOk result (λ w. w ≡ weight_of (shared_tree self.entry)) }
    {
        weigh(self.tree, 0, self.slots, self.rest)
    }
}
