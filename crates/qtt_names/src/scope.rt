//! What stands in a scope.

ghost use Rattle.std.specs.Prelude.{◌≡◌, ◌+◌, [], ◌∷◌, map, length, IfOk, OnOk};
ghost use Rattle.std.specs.List.{flat_map};
ghost use Rattle.qtt_syntax.specs.View.{con_of, item_of, module_of};
ghost use Rattle.qtt_names.specs.Scope.{constructor_name, declared, with_item, with_items};
ghost use Rattle.qtt_names.specs.PrimNames.{scope_of, prim_import};
ghost use Rattle.qtt_names.specs.Exports.{export_of};
ghost use Rattle.qtt_names.specs.View.{scope as scope_seen, imported_of};

use crate::exports::{Exports, copied_items, prim_items, prim_name};
use indexmap::IndexMap;
use qtt_base::{GlobalId, MemoryError, ModuleId, Name};
use qtt_syntax::{ConDecl, Item, ModuleText};
use std::alloc::Global;

/// An item of the module itself: its number, and whether it is a definition.
#[derive(Clone, Copy, Debug, PartialEq, Eq)]
pub struct OwnItem {
    pub number: u32,
    pub is_definition: bool,
}

/// A module that is imported, with its items by their names.
#[derive(Drop)]
pub(crate) struct Imported {
    pub name: Name,
    pub items: IndexMap<Name, GlobalId>,
}

/// The names that a module's text can use, but for local ones: its own items and those of its
/// imports, Prim among them.
#[derive(Drop)]
pub struct Scope {
    pub(crate) module: ModuleId,
    pub(crate) name: Name,
    /// Of two items of one name, the first.
    pub(crate) own: IndexMap<Name, OwnItem>,
    pub(crate) imports: Vec<Imported>,
}

impl Scope {
    /// The scope of a module's text, where `imports` are its direct imports without Prim.
    pub fn new(
        alloc: Global,
        module: ModuleId,
        own: &ModuleText,
        imports: &[Exports],
    ) -> Result<Scope, MemoryError>
        ensures { IfOk result (λ s. scope_seen s ≡ scope_of «module» (module_of own.now)
            (map export_of imports.now)) }
    {
        Ok(Scope {
            module,
            name: own.name.copy()?,
            own: own_items(alloc, &own.items)?,
            imports: with_prim(alloc, imports)?,
        })
    }
}

/// Puts a name behind those that are known, unless it is one of them, and answers the next
/// number.
#[tactic(auto, using(crate::proofs::Owning::owning))]
fn put(own: &mut IndexMap<Name, OwnItem>, name: &Name, item: OwnItem) -> Result<u32, MemoryError>
    ensures entries { OnOk result (own.new.entries ≡ with_item own.old.entries name.now item) }
    ensures next { IfOk result (λ n. n ≡ item.number + 1) }
{
    let next = match item.number.checked_add(1) {
        Some(next) => next,
        None => return Err(MemoryError),
    };
    if own.get(name).is_none() {
        own.insert(name.copy()?, item)?;
    }
    Ok(next)
}

/// Puts constructors, of which the first has this number, and answers the next number.
#[tactic(auto, using(crate::proofs::Owning::owning))]
fn put_constructors(
    own: &mut IndexMap<Name, OwnItem>,
    first: u32,
    constructors: &[ConDecl],
) -> Result<u32, MemoryError>
    ensures entries { OnOk result
        (own.new.entries ≡ with_items own.old.entries first
        (map constructor_name (map con_of constructors.now))) }
    ensures next { IfOk result (λ n. n ≡ first + length constructors.now) }
{
    let mut number = first;
    for constructor in constructors {
        let item = OwnItem {
            number,
            is_definition: false,
        };
        number = put(own, &constructor.name, item)?;
    }
    Ok(number)
}

/// Puts the names that an item declares, of which the first has this number, and answers the
/// next number.
#[tactic(auto, using(crate::proofs::Owning::owning))]
fn put_item(own: &mut IndexMap<Name, OwnItem>, number: u32, item: &Item) -> Result<u32, MemoryError>
    ensures entries { OnOk result
        (own.new.entries ≡ with_items own.old.entries number (declared (item_of item.now))) }
    ensures next { IfOk result (λ n. n ≡ number + length (declared (item_of item.now))) }
{
    match item {
        Item::Family(family) => {
            let item = OwnItem {
                number,
                is_definition: false,
            };
            let first = put(own, &family.name, item)?;
            put_constructors(own, first, &family.constructors)
        }
        Item::Signature(signature) => {
            let item = OwnItem {
                number,
                is_definition: true,
            };
            put(own, &signature.name, item)
        }
        Item::Clause(_) => Ok(number),
    }
}

/// The own items of a text by their names.
#[tactic(auto, using(crate::proofs::Owning::owning))]
fn own_items(alloc: Global, items: &[Item]) -> Result<IndexMap<Name, OwnItem>, MemoryError>
    ensures { IfOk result (λ own. own.entries ≡ with_items [] 0
        (flat_map declared (map item_of items.now))) }
{
    let mut own = IndexMap::new(alloc);
    let mut number = 0;
    for item in items {
        number = put_item(&mut own, number, item)?;
    }
    Ok(own)
}

fn copied_import(import: &Exports) -> Result<Imported, MemoryError>
    ensures { IfOk result (λ i. imported_of i ≡ export_of import.now) }
{
    Ok(Imported {
        name: import.name.copy()?,
        items: copied_items(&import.items)?,
    })
}

/// Prim, and these imports.
fn with_prim(alloc: Global, imports: &[Exports]) -> Result<Vec<Imported>, MemoryError>
    ensures { IfOk result (λ v. map imported_of v.items ≡ prim_import ∷ map export_of imports.now) }
{
    let mut done = Vec::new(alloc);
    done.push(Imported {
        name: prim_name(alloc)?,
        items: prim_items(alloc)?,
    })?;
    for import in imports {
        done.push(copied_import(import)?)?;
    }
    Ok(done)
}
