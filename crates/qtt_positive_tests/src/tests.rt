//! Strict positivity of families of the code.

use qtt_base::{GlobalId, ModuleId, Name};
use qtt_positive::{BadField, positive};
use qtt_term::{Constructor, Family, Term};
use qtt_usage::mult::Mult;
use std::alloc::Global;
use std::test::Fail;

fn item(number: u32) -> GlobalId {
    GlobalId {
        module: ModuleId(1),
        item: number,
    }
}

/// The family `D`, which is item 0.
fn itself(alloc: Global) -> Term {
    Term::Fam(item(0), Vec::new(alloc))
}

/// `D -> Int`
fn consumer(alloc: Global) -> Result<Term, Fail> {
    Ok(Term::pi(alloc, Mult::Many, itself(alloc), Term::IntTy)?)
}

/// `List A`, where `List` is item 1.
fn list_of(alloc: Global, ty: Term) -> Result<Term, Fail> {
    Ok(Term::Fam(item(1), vec![in alloc; ty]?))
}

fn constructor(alloc: Global, types: Vec<Term>) -> Result<Constructor, Fail> {
    let mut fields = Vec::new(alloc);
    for ty in types {
        fields.push((Mult::Many, ty))?;
    }
    Ok(Constructor {
        id: item(9),
        name: Name::new(alloc, "Main.Mk")?,
        fields,
        labels: Vec::new(alloc),
        result: Vec::new(alloc),
    })
}

fn family(alloc: Global, constructors: Vec<Constructor>) -> Result<Family, Fail> {
    Ok(Family {
        id: item(0),
        name: Name::new(alloc, "Main.D")?,
        params: Vec::new(alloc),
        indices: Vec::new(alloc),
        level: 0,
        constructors,
    })
}

/// The family of one constructor with a field of this type.
fn over(alloc: Global, ty: Term) -> Result<Family, Fail> {
    let one = constructor(alloc, vec![in alloc; ty]?)?;
    family(alloc, vec![in alloc; one]?)
}

#[test]
fn families_that_are_positive(rt: HostRuntime) -> Result<(), Fail> {
    let alloc = rt.alloc();
    let numbers = over(alloc, itself(alloc))?;
    let behind = over(
        alloc,
        Term::pi(alloc, Mult::Many, Term::IntTy, itself(alloc))?,
    )?;
    let large = over(alloc, Term::Sort(0))?;
    let lists = over(alloc, list_of(alloc, Term::IntTy)?)?;
    assert!(rt; positive(&numbers).is_ok());
    assert!(rt; positive(&behind).is_ok());
    assert!(rt; positive(&large).is_ok());
    assert!(rt; positive(&lists).is_ok());
    Ok(())
}

#[test]
fn the_first_bad_field_is_told(rt: HostRuntime) -> Result<(), Fail> {
    let alloc = rt.alloc();
    let bad = over(alloc, consumer(alloc)?)?;
    let lists = over(alloc, list_of(alloc, itself(alloc))?)?;
    let first = constructor(alloc, vec![in alloc; Term::IntTy]?)?;
    let second = constructor(alloc, vec![in alloc; itself(alloc), consumer(alloc)?]?)?;
    let third = constructor(alloc, vec![in alloc; consumer(alloc)?]?)?;
    let several = family(alloc, vec![in alloc; first, second, third]?)?;
    let at = |constructor, field| Err(BadField { constructor, field });
    assert_eq!(rt; positive(&bad), at(0, 0));
    assert_eq!(rt; positive(&lists), at(0, 0));
    assert_eq!(rt; positive(&several), at(1, 1));
    Ok(())
}
