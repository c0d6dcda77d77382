//! The own items of a text so far.

ghost use Rattle.std.specs.Prelude.{◌≡◌, ℕ, List, [], ◌∷◌, ◌++◌, option_map, OnOk};
ghost use Rattle.std.specs.Ordering.{nat_cmp};
ghost use Rattle.std.specs.Cmp.Lexicographic.{slice_cmp};
ghost use Rattle.std.specs.BTreeMap as tree;
ghost use Rattle.qtt_implicit.specs.Known.{own_signature};
ghost use Rattle.qtt_implicit.specs.OwnItems.{named_among, owned, place_named};
ghost use Rattle.qtt_implicit.specs.Signatures.{signature_of};

use crate::filling::signature::Signature;
use qtt_base::{MemoryError, Name};
use std::alloc::Global;
use std::collections::BTreeMap;

/// An own item of a text.
#[derive(Clone, Copy)]
pub struct OwnItem<'a> {
    pub name: &'a Name,
    pub sig: Signature<'a>,
}

/// The own items of a text so far, in the order of their numbers, and the first of each name.
#[derive(Drop)]
pub struct OwnItems<'a> {
    pub items: Vec<OwnItem<'a>>,
    first: BTreeMap<&'a str, usize>,
    ghost found: { (q : List ℕ) → tree.get_by (λ k. slice_cmp nat_cmp q k.now) first ≡
        place_named items.items q },
}

impl<'a> OwnItems<'a> {
    pub fn new(alloc: Global) -> OwnItems<'a>
        ensures { owned result.items.items ≡ [] }
    {
        OwnItems {
            items: Vec::new(alloc),
            first: BTreeMap::new(alloc),
        }
    }

    /// Puts an item behind the others.
    pub fn push(&mut self, name: &'a Name, sig: Signature<'a>) -> Result<(), MemoryError>
        ensures { OnOk result (owned self.new.items.items ≡ owned self.old.items.items ++
            (name.now, signature_of sig.entry) ∷ []) }
    {
        let place = self.items.len();
        self.items.push(OwnItem { name, sig })?;
        let text = name.as_str();
        if self.first.get(text).is_none() && self.first.insert(text, place).is_err() {
            self.items.pop();
            return Err(MemoryError);
        }
        Ok(())
    }

    pub fn numbered(&self, number: u32) -> Option<Signature<'a>>
        ensures { option_map signature_of result ≡
            own_signature (owned self.now.items.items) number }
    {
        match self.items.get(number as usize) {
            Some(item) => Some(item.sig),
            None => None,
        }
    }

    pub fn named(&self, name: &Name) -> Option<Signature<'a>>
        ensures { option_map signature_of result ≡
            named_among (owned self.now.items.items) name.now }
    {
        let place = *self.first.get(name.as_str())?;
        Some(self.items[place].sig)
    }
}
