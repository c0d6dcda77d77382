//! The environment: families with their constructors, and definitions.

ghost use Rattle.std.specs.Prelude.{◌≡◌, ◌<◌, ◌^◌, length, map, IsTrue, IfOk};
ghost use Rattle.std.specs.List.{filter};
ghost use Rattle.qtt_base.specs.declared.place.GlobalId.{GlobalId};
ghost use Rattle.qtt_term.specs.Keyed.{ascends, is_of};
ghost use Rattle.qtt_term.specs.Items.{constructor_entry, family_entry, definition_entry, family_id, definition_id, constructor_of, constructors_differ as differ, all_bodies_closed, all_results_counted};
ghost use Rattle.qtt_term.specs.Places.{place_id, place_of, places_from};

use crate::items::{Constructor, Definition, Family};
use crate::keyed::{Keyed, find, place, place_all, search};
use crate::prim_items::{bool_family, eq_family, line_family, unit_family};
use crate::term::{ConId, Term};
use qtt_base::{GlobalId, MemoryError, ModuleId, Name};
use qtt_usage::mult::Mult;
use std::alloc::Global;

/// Families and definitions, each in ascending order of module and item, and where each
/// constructor stands. No variable is free in a body, and each constructor's result has one term
/// for each index.
#[derive(Debug, Drop)]
pub struct Globals {
    families: Vec<Family>,
    definitions: Vec<Definition>,
    places: Vec<Place>,
    pub ghost families_ascend: { IsTrue (ascends family_id (map family_entry families.items)) },
    pub ghost definitions_ascend: { IsTrue
        (ascends definition_id (map definition_entry definitions.items)) },
    ghost places_ascend: { IsTrue (ascends place_id places.items) },
    ghost constructors_differ: { IsTrue (differ (map family_entry families.items)) },
    ghost places_are: { (id : GlobalId) →
        place_of places.items id ≡ constructor_of (map family_entry families.items) id },
    pub ghost bodies_closed: { IsTrue
        (all_bodies_closed (map definition_entry definitions.items)) },
    pub ghost results_counted: { IsTrue (all_results_counted (map family_entry families.items)) },
}

/// Where a constructor stands.
#[derive(Clone, Copy, Debug)]
struct Place {
    id: GlobalId,
    con: ConId,
}

impl Keyed for Family {
    ghost key = { λ F. F.id };

    fn id(&self) -> GlobalId {
        self.id
    }
}

impl Keyed for Definition {
    ghost key = { λ d. d.id };

    fn id(&self) -> GlobalId {
        self.id
    }
}

impl Keyed for Place {
    ghost key = { λ p. p.id };

    fn id(&self) -> GlobalId {
        self.id
    }
}

impl Globals {
    ghost use Rattle.std.specs.Prelude.{[], Some, None, IsOk, OnOk, OnErr, IfSome, IfNone, option_map, slice_get, ◌⊎◌};
    ghost use Rattle.qtt_term.specs.Keyed.{with_id, inserted, all_inserted};
    ghost use Rattle.qtt_term.specs.Items.{family as family_of, definition as definition_of, results_counted, signature_entry, with_constructors, with_body};
    ghost use Rattle.qtt_term.specs.Globals.{families as families_of, definitions as definitions_of, env, IsNew, CanGive, IsAbsent, IsOpen};
    ghost use Rattle.qtt_term.specs.PrimItems.{prim_families};
    ghost use Rattle.qtt_term.specs.PrimEnvironment.{prim_env};
    ghost use Rattle.qtt_term.specs.Substitution.{Closed};
    ghost use Rattle.qtt_term.specs.View.{term};

    fn new(alloc: Global) -> Globals
        ensures families { families_of result ≡ [] }
        ensures definitions { definitions_of result ≡ [] }
    {
        Globals {
            families: Vec::new(alloc),
            definitions: Vec::new(alloc),
            places: Vec::new(alloc),
        }
    }

    /// The environment of the module Prim, which has no definitions.
    pub fn prim(alloc: Global) -> Result<Globals, MemoryError>
        ensures families { IfOk result (λ g. families_of g ≡ prim_families) }
        ensures definitions { IfOk result (λ g. definitions_of g ≡ []) }
        ensures env { IfOk result (λ g. env g ≡ prim_env) }
    {
        let mut globals = Globals::new(alloc);
        globals.add_family(alloc, unit_family(alloc)?)?;
        globals.add_family(alloc, bool_family(alloc)?)?;
        globals.add_family(alloc, line_family(alloc)?)?;
        globals.add_family(alloc, eq_family(alloc)?)?;
        Ok(globals)
    }

    /// Adds a family. Its constructors are numbered by a `u32`.
    pub fn add_family(&mut self, alloc: Global, family: Family) -> Result<(), MemoryError>
        requires count { length family.constructors.items < 2 ^ 32 }
        requires new_ids { IsNew self.old (family_entry family) }
        requires counted { IsTrue (results_counted (family_of family)) }
        ensures ok { OnOk result (families_of self.new ≡ inserted family_id (family_entry family)
            (families_of self.old)) }
        ensures err { OnErr result (families_of self.new ≡ families_of self.old) }
        ensures definitions { definitions_of self.new ≡ definitions_of self.old }
    {
        let places = places_of(alloc, family.id, &family.constructors)?;
        self.places.reserve(places.len())?;
        self.families.reserve(1)?;
        place_all(&mut self.places, places);
        place(&mut self.families, family);
        Ok(())
    }

    /// Gives these constructors to a family that has none. They are numbered by a `u32`.
    pub fn set_constructors(
        &mut self,
        alloc: Global,
        family: GlobalId,
        constructors: Vec<Constructor>,
    ) -> Result<(), MemoryError>
        requires { CanGive self.old family constructors.items }
        ensures ok { OnOk result (families_of self.new ≡ with_constructors family
            (map constructor_entry constructors.items) (families_of self.old)) }
        ensures err { OnErr result (families_of self.new ≡ families_of self.old) }
        ensures definitions { definitions_of self.new ≡ definitions_of self.old }
    {
        let at = match search(&self.families, family) {
            Ok(at) => at,
            Err(_) => unreachable!(),
        };
        let places = places_of(alloc, family, &constructors)?;
        self.places.reserve(places.len())?;
        place_all(&mut self.places, places);
        self.families[at].constructors = constructors;
        Ok(())
    }

    /// Adds a definition without a body.
    pub fn add_signature(
        &mut self,
        id: GlobalId,
        name: Name,
        mult: Mult,
        ty: Term,
    ) -> Result<(), MemoryError>
        requires { IsAbsent self.old id }
        ensures ok { OnOk result (definitions_of self.new ≡ inserted definition_id
            (signature_entry id name mult (term ty)) (definitions_of self.old)) }
        ensures err { OnErr result (definitions_of self.new ≡ definitions_of self.old) }
        ensures families { families_of self.new ≡ families_of self.old }
    {
        self.definitions.reserve(1)?;
        let definition = Definition {
            id,
            name,
            mult,
            ty,
            body: None,
        };
        place(&mut self.definitions, definition);
        Ok(())
    }

    /// Gives a definition its body.
    pub fn set_body(&mut self, id: GlobalId, body: Term) -> Result<(), MemoryError>
        requires open { IsOpen self.old id }
        requires closed { Closed (term body) }
        ensures ok { IsOk result }
        ensures definitions { definitions_of self.new ≡ with_body id (term body)
            (definitions_of self.old) }
        ensures families { families_of self.new ≡ families_of self.old }
    {
        let at = match search(&self.definitions, id) {
            Ok(at) => at,
            Err(_) => unreachable!(),
        };
        self.definitions[at].body = Some(body);
        Ok(())
    }

    /// The family of this id.
    pub fn family(&self, id: GlobalId) -> Option<&Family>
        ensures found { option_map (λ F. family_entry F.now) result ≡ with_id family_id id
            (families_of self.now) }
        ensures env { option_map (λ F. family_of F.now) result ≡ (env self.now).family id }
    {
        find(&self.families, id)
    }

    /// The definition of this id.
    pub fn definition(&self, id: GlobalId) -> Option<&Definition>
        ensures found { option_map (λ d. definition_entry d.now) result ≡ with_id definition_id
            id (definitions_of self.now) }
        ensures env { option_map (λ d. definition_of d.now) result ≡ (env self.now).definition id }
    {
        find(&self.definitions, id)
    }

    /// The family of the constructor of this id, and the constructor's place there, from 0.
    pub fn constructor(&self, id: GlobalId) -> Option<(&Family, u32)>
        ensures found { IfSome result
            (λ r. constructor_of (families_of self.now) id ≡ Some
            (record { family = r.0.now.id; place = r.1 })) }
        ensures family { IfSome result
            (λ r. with_id family_id r.0.now.id (families_of self.now) ≡ Some
            (family_entry r.0.now)) }
        ensures place { IfSome result
            (λ r. slice_get (map (λ c. c.id) r.0.now.constructors.items) r.1 ≡ Some id) }
        ensures none { IfNone result (constructor_of (families_of self.now) id ≡ None) }
    {
        let con = match find(&self.places, id) {
            Some(place) => place.con,
            None => return None,
        };
        match self.family(con.family) {
            Some(family) => Some((family, con.place)),
            None => unreachable!(),
        }
    }

    /// All families, in ascending order of module and item.
    pub(crate) fn families(&self) -> &[Family]
        ensures all { map family_entry result.now ≡ families_of self.now }
        ensures ascend { IsTrue (ascends family_id (families_of self.now)) }
    {
        &self.families
    }

    /// All definitions, in ascending order of module and item.
    pub fn definitions(&self) -> &[Definition]
        ensures all { map definition_entry result.now ≡ definitions_of self.now }
        ensures ascend { IsTrue (ascends definition_id (definitions_of self.now)) }
    {
        &self.definitions
    }

    /// An equal environment.
    pub fn copy(&self, alloc: Global) -> Result<Globals, MemoryError>
        ensures families { IfOk result (λ g. families_of g ≡ families_of self.now) }
        ensures definitions { IfOk result (λ g. definitions_of g ≡ definitions_of self.now) }
    {
        self.copied(alloc, None)
    }

    /// The items of one module.
    pub fn part(&self, alloc: Global, module: ModuleId) -> Result<Globals, MemoryError>
        ensures families { IfOk result
            (λ g. families_of g ≡ filter (λ F. is_of (Some «module») F.id)
            (families_of self.now)) }
        ensures definitions { IfOk result
            (λ g. definitions_of g ≡ filter (λ d. is_of (Some «module») d.id)
            (definitions_of self.now)) }
    {
        self.copied(alloc, Some(module))
    }

    fn copied(&self, alloc: Global, of: Option<ModuleId>) -> Result<Globals, MemoryError>
        ensures families { IfOk result
            (λ g. families_of g ≡ filter (λ F. is_of of F.id) (families_of self.now)) }
        ensures definitions { IfOk result
            (λ g. definitions_of g ≡ filter (λ d. is_of of d.id) (definitions_of self.now)) }
    {
        Ok(Globals {
            families: copied_families(alloc, &self.families, of)?,
            definitions: copied_definitions(alloc, &self.definitions, of)?,
            places: copied_places(alloc, &self.places, of)?,
        })
    }

    /// Adds all items of a part.
    pub fn adopt(&mut self, alloc: Global, part: &Globals) -> Result<(), MemoryError>
        requires { (id : GlobalId) → IsAbsent self.old id ⊎ IsAbsent part.now id }
        ensures families { OnOk result
            (families_of self.new ≡ all_inserted family_id (families_of part.now)
            (families_of self.old)) }
        ensures definitions { OnOk result
            (definitions_of self.new ≡ all_inserted definition_id (definitions_of part.now)
            (definitions_of self.old)) }
        ensures err_families { OnErr result (families_of self.new ≡ families_of self.old) }
        ensures err_definitions { OnErr result (definitions_of self.new ≡ definitions_of self.old) }
    {
        let Globals {
            families,
            definitions,
            places,
        } = part.copy(alloc)?;
        self.families.reserve(families.len())?;
        self.definitions.reserve(definitions.len())?;
        self.places.reserve(places.len())?;
        place_all(&mut self.families, families);
        place_all(&mut self.definitions, definitions);
        place_all(&mut self.places, places);
        Ok(())
    }
}

fn belongs(of: Option<ModuleId>, id: GlobalId) -> bool
    ensures { result ≡ is_of of id }
{
    match of {
        Some(module) => id.module.same(module),
        None => true,
    }
}

/// Copies of the families of one module, or of all.
fn copied_families(
    alloc: Global,
    families: &[Family],
    of: Option<ModuleId>,
) -> Result<Vec<Family>, MemoryError>
    ensures { IfOk result (λ v. map family_entry v.items ≡ filter (λ F. is_of of F.id)
        (map family_entry families.now)) }
{
    let mut copies = Vec::new(alloc);
    for family in families {
        if belongs(of, family.id) {
            copies.push(family.copy(alloc)?)?;
        }
    }
    Ok(copies)
}

/// Copies of the definitions of one module, or of all.
fn copied_definitions(
    alloc: Global,
    definitions: &[Definition],
    of: Option<ModuleId>,
) -> Result<Vec<Definition>, MemoryError>
    ensures { IfOk result (λ v. map definition_entry v.items ≡ filter (λ d. is_of of d.id)
        (map definition_entry definitions.now)) }
{
    let mut copies = Vec::new(alloc);
    for definition in definitions {
        if belongs(of, definition.id) {
            copies.push(definition.copy(alloc)?)?;
        }
    }
    Ok(copies)
}

/// The places of the constructors of one module's families, or of all.
fn copied_places(
    alloc: Global,
    places: &[Place],
    of: Option<ModuleId>,
) -> Result<Vec<Place>, MemoryError>
    ensures { IfOk result (λ v. v.items ≡ filter (λ p. is_of of p.con.family) places.now) }
{
    let mut copies = Vec::new(alloc);
    for place in places {
        if belongs(of, place.con.family) {
            copies.push(*place)?;
        }
    }
    Ok(copies)
}

/// Where the constructors of a family stand.
fn places_of(
    alloc: Global,
    family: GlobalId,
    constructors: &[Constructor],
) -> Result<Vec<Place>, MemoryError>
    requires { length constructors.now < 2 ^ 32 }
    ensures { IfOk result (λ v. v.items ≡ places_from family 0
        (map constructor_entry constructors.now)) }
{
    let mut places = Vec::with_capacity(alloc, constructors.len())?;
    for (place, constructor) in constructors.iter().enumerate() {
        places.push(Place {
            id: constructor.id,
            con: ConId {
                family,
                place: place as u32,
            },
        })?;
    }
    Ok(places)
}
