//! What a used name stands for.

ghost use Rattle.std.specs.Prelude.{◌≡◌, IfOk, None, Some, option_copied, option_map};
ghost use Rattle.qtt_names.specs.Scope.{same_name};
ghost use Rattle.qtt_names.specs.Target.{with_one, imported as what_imports_have, own_item, own_or, global as no_local, by_parts, in_module, is_source, local_place, split_at_dot};
ghost use Rattle.qtt_names.specs.View.{Gives, scope as scope_seen, names_of, unchanged, imported_of};

use crate::errors::NamesError;
use crate::scope::{Imported, OwnItem, Scope};
use qtt_base::{GlobalId, MemoryError, Name};
use qtt_syntax::{Named, Target};
use std::alloc::Global;

/// What a name stands for: nothing, one thing, or several.
#[derive(Clone, Copy, Debug, PartialEq, Eq)]
pub enum Found {
    Nothing,
    One(Target),
    Several,
}

impl Found {
    /// With one more thing of the name.
    fn with(self, id: GlobalId) -> Found
        ensures { result ≡ with_one self id }
    {
        match self {
            Found::Nothing => Found::One(Target::Global(id)),
            Found::One(Target::Global(first)) => {
                if first.same(id) { self } else { Found::Several }
            }
            Found::One(_) | Found::Several => Found::Several,
        }
    }
}

/// Looks up names where a number of own items stand earlier.
#[derive(Clone, Copy)]
pub(crate) struct Resolver<'a> {
    pub alloc: Global,
    pub scope: &'a Scope,
    pub items: u32,
}

fn is_named(name: &Name, text: &str) -> bool
    ensures { result ≡ same_name name.now text.now }
{
    name.as_str() == text
}

/// The module and the item of a qualified name.
fn split(path: &str) -> Option<(&str, &str)>
    ensures { option_map (λ parts. (parts.0.now, parts.1.now)) result ≡ split_at_dot path.now }
{
    path.rsplit_once('.')
}

impl Imported {
    /// The import may be meant by a name of this module, or by one of no module.
    fn is_source(&self, of: Option<&str>) -> bool
        ensures { result ≡ is_source (option_copied of.entry) (imported_of self.now) }
    {
        match of {
            Some(module) => is_named(&self.name, module),
            None => true,
        }
    }
}

impl Scope {
    /// What the imports have of a name, looked up in one module of them or in all.
    #[tactic(auto, using(crate::proofs::Looking::found))]
    fn imported(&self, of: Option<&str>, name: &Name) -> Found
        ensures { result ≡ what_imports_have (scope_seen self.now).imports
            (option_copied of.entry) name.now }
    {
        let mut found = Found::Nothing;
        for import in &self.imports {
            if import.is_source(of) {
                if let Some(id) = import.items.get(name) {
                    found = found.with(*id);
                }
            }
        }
        found
    }

    /// The own item of this name among the first ones.
    pub(crate) fn own_item(&self, items: u32, name: &Name) -> Option<OwnItem>
        ensures { result ≡ own_item (scope_seen self.now) items name.now }
    {
        match self.own.get(name) {
            Some(item) => {
                if item.number < items {
                    Some(*item)
                } else {
                    None
                }
            }
            None => None,
        }
    }

    fn own_target(&self, item: OwnItem) -> Found
        ensures { result ≡ own_or (scope_seen self.now) (Some item) Found.Nothing }
    {
        Found::One(Target::Global(GlobalId {
            module: self.module,
            item: item.number,
        }))
    }
}

/// A part of a name.
pub(crate) fn part(alloc: Global, text: &str) -> Result<Name, MemoryError>
    ensures { IfOk result (λ n. n ≡ text.now) }
{
    match Name::new(alloc, text) {
        Ok(name) => Ok(name),
        Err(_) => Err(MemoryError),
    }
}

/// The place of the newest local of this name, counted from the newest one.
fn local(locals: &[Name], name: &Name) -> Option<usize>
    ensures { result ≡ local_place locals.now name.now }
{
    locals.iter().rev().position(|local| *name == *local)
}

impl Resolver<'_> {
    /// What an item of the module itself stands for, or nothing.
    fn own(&self, name: &Name) -> Found
        ensures { result ≡ own_or (scope_seen self.now.scope.now)
            (own_item (scope_seen self.now.scope.now) self.now.items name.now) Found.Nothing }
    {
        match self.scope.own_item(self.items, name) {
            Some(item) => self.scope.own_target(item),
            None => Found::Nothing,
        }
    }

    /// What a name of one part that is no local one stands for.
    fn plain(&self, name: &Name) -> Found
        ensures { result ≡ by_parts (scope_seen self.now.scope.now) self.now.items name.now None }
    {
        match self.scope.own_item(self.items, name) {
            Some(item) => self.scope.own_target(item),
            None => self.scope.imported(None, name),
        }
    }

    /// What a name of this module stands for.
    fn qualified(&self, within: &str, name: &Name) -> Found
        ensures { result ≡ in_module (scope_seen self.now.scope.now) self.now.items within.now
            name.now }
    {
        if is_named(&self.scope.name, within) {
            self.own(name)
        } else {
            self.scope.imported(Some(within), name)
        }
    }

    /// What a name that is no local one stands for.
    #[tactic(auto, unfolding(crate::specs::Target::global))]
    fn global(&self, path: &Name) -> Result<Found, MemoryError>
        ensures { IfOk result (λ found. found ≡ no_local
            (scope_seen self.now.scope.now) self.now.items path.now) }
    {
        match split(path.as_str()) {
            None => Ok(self.plain(path)),
            Some((within, item)) => {
                let name = part(self.alloc, item)?;
                Ok(self.qualified(within, &name))
            }
        }
    }

    /// A used name with its target, behind these local binders, the oldest first.
    #[tactic(auto, unfolding(crate::specs::Target::look_up))]
    pub fn look_up(&self, locals: &[Name], named: &Named) -> Result<Named, NamesError>
        ensures { Gives unchanged result (names_of self.now locals.now named.now) }
    {
        let found = match local(locals, &named.path) {
            Some(place) => match u32::try_from(place) {
                Ok(place) => Found::One(Target::Local(place)),
                Err(_) => return Err(NamesError::Memory),
            },
            None => self.global(&named.path)?,
        };
        match found {
            Found::One(target) => Ok(Named {
                path: named.path.copy()?,
                target,
                span: named.span,
            }),
            Found::Nothing => Err(NamesError::unbound(self.alloc, &named.path, named.span)),
            Found::Several => Err(NamesError::ambiguous(self.alloc, &named.path, named.span)),
        }
    }
}
