//! What stands behind the header of a text.

ghost use Rattle.std.specs.Prelude.{◌≡◌, ◌+◌, ◌<◌, ◌^◌, [], ◌∷◌, IfOk, OnOk};
ghost use Rattle.qtt_syntax.specs.View.{item_of};
ghost use Rattle.qtt_grammar.specs.Grammar.{start, clauses_before, next_place, listed};
ghost use Rattle.qtt_grammar.specs.View.{entry_of, place_of, body_of, joined_body};

use crate::lexemes::new_name;
use qtt_base::{MemoryError, Name};
use qtt_syntax::{Import, Item};
use std::alloc::Global;

/// An import or an item.
#[derive(Debug, Drop)]
pub enum Entry {
    Import(Import),
    Item(Item),
}

/// The imports and items of a text, as far as they are read.
#[derive(Debug, Drop)]
pub struct Body {
    pub imports: Vec<Import>,
    pub items: Vec<Item>,
    /// The name of the clauses that stand last, which is empty where there are none.
    pub clauses_of: Name,
    pub clauses: usize,
}

impl Body {
    pub fn new(alloc: Global) -> Result<Body, MemoryError>
        ensures parts { IfOk result (λ body. body_of body ≡ ([], [])) }
        ensures place { IfOk result (λ body. place_of body ≡ start) }
    {
        Ok(Body {
            imports: Vec::new(alloc),
            items: Vec::new(alloc),
            clauses_of: new_name(alloc, "")?,
            clauses: 0,
        })
    }

    /// How many clauses of this name stand last.
    pub fn clauses_before(&self, name: &Name) -> usize
        ensures { result ≡ clauses_before (place_of self.now) name.now }
    {
        if self.clauses_of == *name {
            self.clauses
        } else {
            0
        }
    }

    // Counts an item among the clauses of one name.
    fn count(&mut self, alloc: Global, item: &Item) -> Result<(), MemoryError>
        requires { self.old.clauses + 1 < 2 ^ 64 }
        ensures imports { OnOk result (self.new.imports ≡ self.old.imports) }
        ensures items { OnOk result (self.new.items ≡ self.old.items) }
        ensures name { OnOk result
            (self.new.clauses_of ≡
            (next_place (place_of self.old) (listed (item_of item.now))).clauses_of) }
        ensures count { OnOk result
            (self.new.clauses ≡ (next_place (place_of self.old)
            (listed (item_of item.now))).clauses) }
    {
        match item {
            Item::Clause(clause) => {
                self.clauses = self.clauses_before(&clause.name) + 1;
                self.clauses_of = clause.name.copy()?;
            }
            Item::Family(_) | Item::Signature(_) => {
                self.clauses = 0;
                self.clauses_of = new_name(alloc, "")?;
            }
        }
        Ok(())
    }

    /// Puts an entry behind the others.
    pub fn push(&mut self, alloc: Global, entry: Entry) -> Result<(), MemoryError>
        requires { self.old.clauses + 1 < 2 ^ 64 }
        ensures parts { OnOk result
            (body_of self.new ≡ joined_body (body_of self.old) (entry_of entry ∷ [])) }
        ensures place { OnOk result
            (place_of self.new ≡ next_place (place_of self.old) (entry_of entry)) }
    {
        match entry {
            Entry::Import(import) => self.imports.push(import)?,
            Entry::Item(item) => {
                self.count(alloc, &item)?;
                self.items.push(item)?;
            }
        }
        Ok(())
    }
}
