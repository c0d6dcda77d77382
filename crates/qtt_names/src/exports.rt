//! What a module gives to those that import it.

ghost use Rattle.std.specs.Prelude.{◌≡◌, ◌<◌, ◌^◌, [], length, map, IfOk};
ghost use Rattle.qtt_names.specs.Exports.{exports_of, sig_of};
ghost use Rattle.qtt_names.specs.PrimSigs.{prim_exports};
ghost use Rattle.qtt_names.specs.PrimNames.{prim_name as name_of_prim, prim_items as items_of_prim, with_names};

use crate::prim_sigs::prim_sigs;
use crate::target::part;
use indexmap::IndexMap;
use qtt_base::{GlobalId, MemoryError, ModuleId, Name};
use qtt_syntax::Expr;
use std::alloc::Global;

/// What a module gives to those that import it.
#[derive(Drop)]
pub struct Exports {
    pub module: ModuleId,
    pub name: Name,
    /// The items by their names.
    pub items: IndexMap<Name, GlobalId>,
    /// The signatures of the items, in the order of their numbers.
    pub sigs: Vec<Sig>,
}

/// The signature of an item: a chain of binders. In front stand those that no text writes (the
/// parameters of a constructor's family, and the type that `pure` and `pure1` are at), and then
/// those in braces.
#[derive(Debug, Drop)]
pub struct Sig {
    pub braces: u32,
    pub params: u32,
    pub ty: Expr,
}

impl Exports {
    /// What the module Prim gives: module 0, whose items are numbered from 0. Places are 0:0, of
    /// no length; no binder is in braces.
    pub fn prim(alloc: Global) -> Result<Exports, MemoryError>
        ensures { IfOk result (λ e. exports_of e ≡ prim_exports) }
    {
        Ok(Exports {
            module: ModuleId(0),
            name: prim_name(alloc)?,
            items: prim_items(alloc)?,
            sigs: prim_sigs(alloc)?,
        })
    }

    /// An equal value.
    pub fn copy(&self, alloc: Global) -> Result<Exports, MemoryError>
        ensures { IfOk result (λ copy. exports_of copy ≡ exports_of self.now) }
    {
        Ok(Exports {
            module: self.module,
            name: self.name.copy()?,
            items: copied_items(&self.items)?,
            sigs: copied_sigs(alloc, &self.sigs)?,
        })
    }
}

impl Sig {
    /// An equal value.
    pub fn copy(&self, alloc: Global) -> Result<Sig, MemoryError>
        ensures { IfOk result (λ copy. sig_of copy ≡ sig_of self.now) }
    {
        Ok(Sig {
            braces: self.braces,
            params: self.params,
            ty: self.ty.copy(alloc)?,
        })
    }
}

fn copied_sigs(alloc: Global, sigs: &[Sig]) -> Result<Vec<Sig>, MemoryError>
    ensures { IfOk result (λ copies. map sig_of copies.items ≡ map sig_of sigs.now) }
{
    let mut copies = Vec::with_capacity(alloc, sigs.len())?;
    for sig in sigs {
        copies.push(sig.copy(alloc)?)?;
    }
    Ok(copies)
}

/// The names of Prim's items, in the order of their numbers.
static PRIM_NAMES: [&str; 32] = [
    "Int",
    "String",
    "Handle",
    "Unit",
    "Bool",
    "Line",
    "IO",
    "IO1",
    "MkUnit",
    "False",
    "True",
    "Eof",
    "Got",
    "Eq",
    "Refl",
    "addInt",
    "subInt",
    "mulInt",
    "divInt",
    "modInt",
    "eqInt",
    "ltInt",
    "appendString",
    "eqString",
    "showInt",
    "pure",
    "pure1",
    "putLine",
    "getLine",
    "open",
    "write",
    "close",
];

pub(crate) fn prim_name(alloc: Global) -> Result<Name, MemoryError>
    ensures { IfOk result (λ n. n ≡ name_of_prim) }
{
    part(alloc, "Prim")
}

/// Names by which the items of Prim of these numbers go.
#[tactic(auto, using(crate::proofs::Owning::owning))]
fn numbered(alloc: Global, names: &[&str]) -> Result<IndexMap<Name, GlobalId>, MemoryError>
    requires { length names.now < 2 ^ 32 }
    ensures { IfOk result (λ m. m.entries ≡ with_names [] 0 names.now) }
{
    let mut items = IndexMap::new(alloc);
    for (number, name) in names.iter().enumerate() {
        let id = GlobalId {
            module: ModuleId(0),
            item: number as u32,
        };
        items.insert(part(alloc, name)?, id)?;
    }
    Ok(items)
}

/// The items of Prim by their names.
pub(crate) fn prim_items(alloc: Global) -> Result<IndexMap<Name, GlobalId>, MemoryError>
    ensures { IfOk result (λ m. m.entries ≡ items_of_prim) }
{
    numbered(alloc, &PRIM_NAMES)
}

pub(crate) fn copied_items(
    items: &IndexMap<Name, GlobalId>,
) -> Result<IndexMap<Name, GlobalId>, MemoryError>
    ensures { IfOk result (λ m. m.entries ≡ items.now.entries) }
{
    Ok(items.clone()?)
}
