//! The families of the module Prim: Unit, Bool, Line and Eq, numbered by their places in Prim's
//! table of names.

ghost use Rattle.std.specs.Prelude.{◌≡◌, IfOk, map, codes};
ghost use Rattle.qtt_term.specs.Signature.{prim_id as id_of, plain_family as plain};
ghost use Rattle.qtt_term.specs.Items.{field, family_entry, constructor_entry};
ghost use Rattle.qtt_term.specs.PrimItems.{plain_entry, unit_entry, bool_entry, line_entry, eq_entry};
ghost use Rattle.qtt_term.specs.View.{terms, side_by_side};

use crate::items::{Constructor, Family};
use crate::term::Term;
use qtt_base::{GlobalId, MemoryError, ModuleId, Name};
use qtt_usage::mult::Mult;
use std::alloc::Global;

pub(crate) fn prim_id(item: u32) -> GlobalId
    ensures { result ≡ id_of item }
{
    GlobalId {
        module: ModuleId(0),
        item,
    }
}

fn prim_name(alloc: Global, text: &str) -> Result<Name, MemoryError>
    ensures { IfOk result (λ n. n ≡ text.now) }
{
    match Name::new(alloc, text) {
        Ok(name) => Ok(name),
        Err(_) => Err(MemoryError),
    }
}

/// A constructor whose arguments have no names.
fn constructor(
    alloc: Global,
    item: u32,
    name: &str,
    fields: Vec<(Mult, Term)>,
    result_indices: Vec<Term>,
) -> Result<Constructor, MemoryError>
    ensures { IfOk result (λ c. constructor_entry c ≡ plain_entry item name.now
        (map (λ f. codes "_") fields.items)
        (record {
          fields = map field fields.items;
          results = side_by_side (terms result_indices.items);
        })) }
{
    Ok(Constructor {
        id: prim_id(item),
        name: prim_name(alloc, name)?,
        labels: no_labels(alloc, &fields)?,
        fields,
        result: result_indices,
    })
}

fn no_labels(alloc: Global, fields: &[(Mult, Term)]) -> Result<Vec<Name>, MemoryError>
    ensures { IfOk result (λ v. v.items ≡ map (λ f. codes "_") fields.now) }
{
    let mut labels = Vec::with_capacity(alloc, fields.len())?;
    for _field in fields {
        labels.push(prim_name(alloc, "_")?)?;
    }
    Ok(labels)
}

/// A family without parameters and indices.
fn plain_family(
    alloc: Global,
    item: u32,
    name: &str,
    constructors: Vec<Constructor>,
) -> Result<Family, MemoryError>
    ensures { IfOk result (λ F. family_entry F ≡ record {
      id = id_of item;
      name = name.now;
      family = plain (map (λ e. e.constructor) (map constructor_entry constructors.items));
      constructors = map constructor_entry constructors.items;
    }) }
{
    Ok(Family {
        id: prim_id(item),
        name: prim_name(alloc, name)?,
        params: Vec::new(alloc),
        indices: Vec::new(alloc),
        level: 0,
        constructors,
    })
}

/// `data Unit : Type where MkUnit : Unit`
pub(crate) fn unit_family(alloc: Global) -> Result<Family, MemoryError>
    ensures { IfOk result (λ F. family_entry F ≡ unit_entry) }
{
    let make = constructor(alloc, 8, "Prim.MkUnit", Vec::new(alloc), Vec::new(alloc))?;
    plain_family(alloc, 3, "Prim.Unit", vec![in alloc; make]?)
}

/// `data Bool : Type where False : Bool; True : Bool`
pub(crate) fn bool_family(alloc: Global) -> Result<Family, MemoryError>
    ensures { IfOk result (λ F. family_entry F ≡ bool_entry) }
{
    let no = constructor(alloc, 9, "Prim.False", Vec::new(alloc), Vec::new(alloc))?;
    let yes = constructor(alloc, 10, "Prim.True", Vec::new(alloc), Vec::new(alloc))?;
    plain_family(alloc, 4, "Prim.Bool", vec![in alloc; no, yes]?)
}

/// `data Line : Type where Eof : Line; Got : String -> Line`
pub(crate) fn line_family(alloc: Global) -> Result<Family, MemoryError>
    ensures { IfOk result (λ F. family_entry F ≡ line_entry) }
{
    let eof = constructor(alloc, 11, "Prim.Eof", Vec::new(alloc), Vec::new(alloc))?;
    let text = vec![in alloc; (Mult::Many, Term::StringTy)]?;
    let got = constructor(alloc, 12, "Prim.Got", text, Vec::new(alloc))?;
    plain_family(alloc, 5, "Prim.Line", vec![in alloc; eof, got]?)
}

/// `data Eq (a : Type) (x : a) : a -> Type where Refl : Eq a x x`
pub(crate) fn eq_family(alloc: Global) -> Result<Family, MemoryError>
    ensures { IfOk result (λ F. family_entry F ≡ eq_entry) }
{
    let point = vec![in alloc; Term::Var(0)]?;
    let reflexivity = constructor(alloc, 14, "Prim.Refl", Vec::new(alloc), point)?;
    Ok(Family {
        id: prim_id(13),
        name: prim_name(alloc, "Prim.Eq")?,
        params: vec![in alloc; Term::Sort(0), Term::Var(0)]?,
        indices: vec![in alloc; Term::Var(1)]?,
        level: 0,
        constructors: vec![in alloc; reflexivity]?,
    })
}
