//! Environments of the families of Prim and items of Main.

ghost use Rattle.std.specs.Prelude.{◌≡◌, ◌∷◌, [], ℕ, List, map, reverse, IfOk, OnOk};
ghost use Rattle.qtt_term.specs.Globals.{env, families as families_of, definitions as definitions_of};
ghost use Rattle.qtt_term.specs.Keyed.{inserted};
ghost use Rattle.qtt_term.specs.Items.{family_entry, family_id, field, constructor as constructor_of, family as family_of};
ghost use Rattle.qtt_term.specs.Programs.{many, program, item as item_of};
ghost use Rattle.qtt_term.specs.Signature.{Family as SpecFamily, Definition as SpecDefinition, plain_family as plain_of};
ghost use Rattle.qtt_term.specs.Substitution.{Closed};
ghost use Rattle.qtt_term.specs.View.{term, terms, side_by_side};
ghost use Rattle.qtt_programs.specs.Closed.{Closed-prop};

use crate::terms::item;
use qtt_base::Name;
use qtt_term::{Constructor, Family, Globals, Term};
use qtt_usage::mult::Mult;
use std::alloc::Global;
use std::test::Fail;

/// A definition of Main with its body, in which no variable is free.
#[derive(Drop)]
pub struct Item {
    number: u32,
    ty: Term,
    body: Term,
    ghost closed: { Closed (term body) } by { Closed-prop (term body) },
}

pub fn definition(number: u32, ty: Term, body: Term) -> Item
    requires { Closed (term body) }
    ensures number { result.number ≡ number }
    ensures ty { result.ty ≡ ty }
    ensures body { result.body ≡ body }
{
    Item { number, ty, body }
}

fn define(alloc: Global, globals: &mut Globals, new: Item) -> Result<(), Fail>
    ensures { OnOk result ((fs : List (ℕ × SpecFamily)) (ds : List (ℕ × SpecDefinition)) →
        env globals.old ≡ program fs ds →
        env globals.new ≡ program fs ((new.number, many (term new.ty) (term new.body)) ∷ ds)) }
{
    let Item { number, ty, body } = new;
    let id = item(number);
    if !globals.is_absent(id) {
        return Err(Fail::from("the id is taken"));
    }
    globals.add_signature(id, Name::new(alloc, "Main.it")?, Mult::Many, ty)?;
    if !globals.is_open(id) {
        return Err(Fail::from("the definition has a body"));
    }
    globals.set_body(id, body)?;
    Ok(())
}

/// Adds definitions, of which the last is the first of the program.
pub fn define_all(alloc: Global, mut globals: Globals, items: Vec<Item>) -> Result<Globals, Fail>
    ensures { IfOk result (λ g. (fs : List (ℕ × SpecFamily)) → env globals ≡ program fs [] →
        env g ≡ program fs (reverse
        (map (λ x. (x.number, many (term x.ty) (term x.body))) items.items))) }
{
    for new in items {
        define(alloc, &mut globals, new)?;
    }
    Ok(globals)
}

/// A program without families of its own.
pub fn plain(alloc: Global, items: Vec<Item>) -> Result<Globals, Fail>
    ensures { IfOk result (λ g. env g ≡ program []
        (reverse (map (λ x. (x.number, many (term x.ty) (term x.body))) items.items))) }
{
    define_all(alloc, Globals::prim(alloc)?, items)
}

/// A constructor of Main, whose labels are left out.
pub fn constructor(
    alloc: Global,
    number: u32,
    name: &str,
    fields: Vec<(Mult, Term)>,
    targets: Vec<Term>,
) -> Result<Constructor, Fail>
    ensures id { IfOk result (λ c. c.id ≡ item_of number) }
    ensures constructor { IfOk result (λ c. constructor_of c ≡ record {
      fields = map field fields.items;
      results = side_by_side (terms targets.items);
    }) }
{
    Ok(Constructor {
        id: item(number),
        name: Name::new(alloc, name)?,
        fields,
        labels: Vec::new(alloc),
        result: targets,
    })
}

/// A family without parameters and indices, the first item of Main.
pub fn plain_family(
    alloc: Global,
    name: &str,
    constructors: Vec<Constructor>,
) -> Result<Family, Fail>
    ensures id { IfOk result (λ F. F.id ≡ item_of 0) }
    ensures constructors { IfOk result (λ F. F.constructors.items ≡ constructors.items) }
    ensures family { IfOk result
        (λ F. family_of F ≡ plain_of (map constructor_of constructors.items)) }
{
    Ok(Family {
        id: item(0),
        name: Name::new(alloc, name)?,
        params: Vec::new(alloc),
        indices: Vec::new(alloc),
        level: 0,
        constructors,
    })
}

/// Adds a family, where it may be added.
pub fn add(alloc: Global, globals: &mut Globals, family: Family) -> Result<(), Fail>
    ensures families { OnOk result
        (families_of globals.new ≡ inserted family_id (family_entry family)
        (families_of globals.old)) }
    ensures definitions { OnOk result (definitions_of globals.new ≡ definitions_of globals.old) }
{
    if !globals.can_add(&family) {
        return Err(Fail::from("the family may not be added"));
    }
    globals.add_family(alloc, family)?;
    Ok(())
}

/// Adds a definition of Main at a multiplicity, with its body, where its id is free.
pub fn define_at(
    alloc: Global,
    globals: &mut Globals,
    number: u32,
    mult: Mult,
    ty: Term,
    body: Term,
) -> Result<(), Fail>
    requires { Closed (term body) }
    ensures { families_of globals.new ≡ families_of globals.old }
{
    let id = item(number);
    if !globals.is_absent(id) {
        return Err(Fail::from("the id is taken"));
    }
    globals.add_signature(id, Name::new(alloc, "Main.it")?, mult, ty)?;
    if !globals.is_open(id) {
        return Err(Fail::from("the definition has a body"));
    }
    globals.set_body(id, body)?;
    Ok(())
}

/// A program of one family, which is the first item of Main.
pub fn with_family(alloc: Global, family: Family) -> Result<Globals, Fail>
    requires { family.id ≡ item_of 0 }
    ensures { IfOk result (λ g. env g ≡ program ((0, family_of family) ∷ []) []) }
{
    let mut globals = Globals::prim(alloc)?;
    add(alloc, &mut globals, family)?;
    Ok(globals)
}
