//! Families, constructors and definitions.

ghost use Rattle.std.specs.Prelude.{◌≡◌, IfOk, map};
ghost use Rattle.qtt_term.specs.Items.{field, constructor_entry, family_entry, definition_entry};

use crate::copying::copy_all;
use crate::term::Term;
use qtt_base::{GlobalId, MemoryError, Name};
use qtt_usage::mult::Mult;
use std::alloc::Global;

/// A family of types. Each parameter's type stands under the parameters before it, and each
/// index's type under the parameters alone.
#[derive(Debug, Drop)]
pub struct Family {
    pub id: GlobalId,
    /// Qualified, as `Main.Nat`.
    pub name: Name,
    pub params: Vec<Term>,
    pub indices: Vec<Term>,
    pub level: u32,
    pub constructors: Vec<Constructor>,
}

/// A constructor, under the parameters of its family. Each field's type stands under the fields
/// before it, and the result's indices under all fields.
#[derive(Debug, Drop)]
pub struct Constructor {
    pub id: GlobalId,
    /// Qualified, as `Main.S`.
    pub name: Name,
    pub fields: Vec<(Mult, Term)>,
    /// The name in the text of each field, `_` where it has none.
    pub labels: Vec<Name>,
    pub result: Vec<Term>,
}

/// A definition, which has no body until all its clauses are elaborated.
#[derive(Debug, Drop)]
pub struct Definition {
    pub id: GlobalId,
    /// Qualified, as `Main.main`.
    pub name: Name,
    pub mult: Mult,
    pub ty: Term,
    pub body: Option<Term>,
}

impl Family {
    /// A family that stands for the same, with the same ids, names and labels.
    pub fn copy(&self, alloc: Global) -> Result<Family, MemoryError>
        ensures { IfOk result (λ F. family_entry F ≡ family_entry self.now) }
    {
        Ok(Family {
            id: self.id,
            name: self.name.copy()?,
            params: copy_all(alloc, &self.params)?,
            indices: copy_all(alloc, &self.indices)?,
            level: self.level,
            constructors: copy_constructors(alloc, &self.constructors)?,
        })
    }
}

impl Constructor {
    /// A constructor that stands for the same, with the same id, name and labels.
    pub fn copy(&self, alloc: Global) -> Result<Constructor, MemoryError>
        ensures { IfOk result (λ c. constructor_entry c ≡ constructor_entry self.now) }
    {
        Ok(Constructor {
            id: self.id,
            name: self.name.copy()?,
            fields: copy_fields(alloc, &self.fields)?,
            labels: copy_names(alloc, &self.labels)?,
            result: copy_all(alloc, &self.result)?,
        })
    }
}

impl Definition {
    /// A definition that stands for the same, with the same id and name.
    pub fn copy(&self, alloc: Global) -> Result<Definition, MemoryError>
        ensures { IfOk result (λ d. definition_entry d ≡ definition_entry self.now) }
    {
        let body = match &self.body {
            Some(body) => Some(body.copy(alloc)?),
            None => None,
        };
        Ok(Definition {
            id: self.id,
            name: self.name.copy()?,
            mult: self.mult,
            ty: self.ty.copy(alloc)?,
            body,
        })
    }
}

fn copy_constructors(
    alloc: Global,
    constructors: &[Constructor],
) -> Result<Vec<Constructor>, MemoryError>
    ensures { IfOk result (λ v. map constructor_entry v.items ≡ map constructor_entry
        constructors.now) }
{
    let mut copies = Vec::with_capacity(alloc, constructors.len())?;
    for constructor in constructors {
        copies.push(constructor.copy(alloc)?)?;
    }
    Ok(copies)
}

fn copy_fields(alloc: Global, fields: &[(Mult, Term)]) -> Result<Vec<(Mult, Term)>, MemoryError>
    ensures { IfOk result (λ v. map field v.items ≡ map field fields.now) }
{
    let mut copies = Vec::with_capacity(alloc, fields.len())?;
    for (mult, ty) in fields {
        copies.push((*mult, ty.copy(alloc)?))?;
    }
    Ok(copies)
}

fn copy_names(alloc: Global, names: &[Name]) -> Result<Vec<Name>, MemoryError>
    ensures { IfOk result (λ v. v.items ≡ names.now) }
{
    let mut copies = Vec::with_capacity(alloc, names.len())?;
    for name in names {
        copies.push(name.copy()?)?;
    }
    Ok(copies)
}
