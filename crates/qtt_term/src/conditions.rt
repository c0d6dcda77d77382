//! The tests beside the conditions of an environment's calls. They take no memory.

ghost use Rattle.std.specs.Prelude.{◌≡◌, ◌↔◌, IsTrue, map, not, eqb, length};
ghost use Rattle.std.specs.List.{list_all};
ghost use Rattle.qtt_term.specs.Globals.{IsAbsent, IsOpen, IsNew, CanAdd, CanGive, is_absent};
ghost use Rattle.qtt_term.specs.Items.{family_entry};
ghost use Rattle.qtt_term.specs.Keyed.{ids_differ};
ghost use Rattle.qtt_term.specs.Term.{same_id};

use crate::globals::Globals;
use crate::items::{Constructor, Family};
use qtt_base::{GlobalId, ModuleId};

impl Globals {
    /// Whether no item has this id.
    pub fn is_absent(&self, id: GlobalId) -> bool
        ensures { IsTrue result ↔ IsAbsent self.now id }
    {
        self.family(id).is_none() && self.constructor(id).is_none() && self.definition(id).is_none()
    }

    /// Whether a definition has this id, and no body.
    pub fn is_open(&self, id: GlobalId) -> bool
        ensures { IsTrue result ↔ IsOpen self.now id }
    {
        match self.definition(id) {
            Some(definition) => definition.body.is_none(),
            None => false,
        }
    }

    /// Whether this family may be added.
    pub fn can_add(&self, family: &Family) -> bool
        ensures { IsTrue result ↔ CanAdd self.now family.now }
    {
        let few = family.constructors.len() <= u32::MAX as usize;
        let new_ids = self.has_no_ids_of(family);
        let counted = are_counted(&family.constructors, family.indices.len());
        few & (new_ids & counted)
    }

    /// Whether these constructors may be given to the family of this id.
    pub fn can_give(&self, family: GlobalId, constructors: &[Constructor]) -> bool
        ensures { IsTrue result ↔ CanGive self.now family constructors.now }
    {
        match self.family(family) {
            Some(found) => {
                let bare = found.constructors.len() == 0;
                let few = constructors.len() <= u32::MAX as usize;
                let differ = are_different(constructors);
                let absent = are_absent(self, constructors);
                let counted = are_counted(constructors, found.indices.len());
                bare & (few & (differ & (absent & counted)))
            }
            None => false,
        }
    }

    /// Whether the ids of a family and its constructors differ, are of one module, and are
    /// absent.
    fn has_no_ids_of(&self, family: &Family) -> bool
        ensures { IsTrue result ↔ IsNew self.now (family_entry family.now) }
    {
        let constructors = &family.constructors;
        let apart = is_apart(family.id, constructors);
        let differ = are_different(constructors);
        let of_module = are_of(family.id.module, constructors);
        let absent = self.is_absent(family.id);
        let all_absent = are_absent(self, constructors);
        apart & (differ & (of_module & (absent & all_absent)))
    }
}

fn same_ids(one: GlobalId, other: GlobalId) -> bool
    ensures { result ≡ same_id one other }
{
    one.module.0 == other.module.0 && one.item == other.item
}

/// Whether no constructor has this id.
fn is_apart(id: GlobalId, constructors: &[Constructor]) -> bool
    ensures { result ≡ list_all (λ c. not (same_id id c.id)) constructors.now }
{
    for constructor in constructors {
        if same_ids(id, constructor.id) {
            return false;
        }
    }
    true
}

/// Whether no two constructors have the same id.
fn are_different(constructors: &[Constructor]) -> bool
    ensures { result ≡ ids_differ (map (λ c. c.id) constructors.now) }
{
    for (place, constructor) in constructors.iter().enumerate() {
        if !is_apart(constructor.id, &constructors[place + 1..]) {
            return false;
        }
    }
    true
}

/// Whether the constructors are of this module.
fn are_of(id: ModuleId, constructors: &[Constructor]) -> bool
    ensures { result ≡ list_all (λ c. eqb c.id.module.0 id.0) constructors.now }
{
    for constructor in constructors {
        if constructor.id.module.0 != id.0 {
            return false;
        }
    }
    true
}

/// Whether no item has the id of one of the constructors.
#[tactic(auto, using(crate::proofs::Tests::tests_agree))]
fn are_absent(globals: &Globals, constructors: &[Constructor]) -> bool
    ensures { result ≡ list_all (λ c. is_absent globals.now c.id) constructors.now }
{
    for constructor in constructors {
        if !globals.is_absent(constructor.id) {
            return false;
        }
    }
    true
}

/// Whether the result of each constructor has so many terms.
pub(crate) fn are_counted(constructors: &[Constructor], indices: usize) -> bool
    ensures { result ≡ list_all (λ c. eqb (length c.result.items) indices) constructors.now }
{
    for constructor in constructors {
        if constructor.result.len() != indices {
            return false;
        }
    }
    true
}
