//! The items of the texts, as they are known.

use super::terms::{item, numbers, successor, vectors};
use qtt_base::Name;
use qtt_term::{ConId, Constructor, Family, Globals, Term};
use qtt_usage::mult::Mult;
use std::alloc::Global;
use std::test::Fail;

/// A constructor of Main; the names of its fields are left out.
fn constructor(
    alloc: Global,
    number: u32,
    name: &str,
    fields: Vec<(Mult, Term)>,
    indices: Vec<Term>,
) -> Result<Constructor, Fail> {
    Ok(Constructor {
        id: item(number),
        name: Name::new(alloc, name)?,
        fields,
        labels: Vec::new(alloc),
        result: indices,
    })
}

fn add(alloc: Global, globals: &mut Globals, family: Family) -> Result<(), Fail> {
    if !globals.can_add(&family) {
        return Err(Fail::from("the family may not be added"));
    }
    globals.add_family(alloc, family)?;
    Ok(())
}

/// `data Nat : Type where Z : Nat; S : Nat -> Nat`
fn nat(alloc: Global) -> Result<Family, Fail> {
    let before = vec![in alloc; (Mult::Many, numbers(alloc))]?;
    let zero = constructor(alloc, 1, "Main.Z", Vec::new(alloc), Vec::new(alloc))?;
    let more = constructor(alloc, 2, "Main.S", before, Vec::new(alloc))?;
    Ok(Family {
        id: item(0),
        name: Name::new(alloc, "Main.Nat")?,
        params: Vec::new(alloc),
        indices: Vec::new(alloc),
        level: 0,
        constructors: vec![in alloc; zero, more]?,
    })
}

/// `data Vect (a : Type) : Nat -> Type where`, `Nil : Vect a Z`,
/// `Cons : (0 k : Nat) -> (1 x : a) -> (1 xs : Vect a k) -> Vect a (S k)`
fn vect(alloc: Global) -> Result<Family, Fail> {
    let con = ConId {
        family: item(0),
        place: 0,
    };
    let zero = Term::Con(con, Vec::new(alloc), Vec::new(alloc));
    let nil = constructor(alloc, 5, "Main.Nil", Vec::new(alloc), vec![in alloc; zero]?)?;
    let fields = vec![in alloc;
        (Mult::Zero, numbers(alloc)),
        (Mult::One, Term::Var(1)),
        (Mult::One, vectors(alloc, 2, 1)?),
    ]?;
    let length = vec![in alloc; successor(alloc, Term::Var(2))?]?;
    let cons = constructor(alloc, 6, "Main.Cons", fields, length)?;
    Ok(Family {
        id: item(4),
        name: Name::new(alloc, "Main.Vect")?,
        params: vec![in alloc; Term::Sort(0)]?,
        indices: vec![in alloc; numbers(alloc)]?,
        level: 0,
        constructors: vec![in alloc; nil, cons]?,
    })
}

/// `data Same (x : Type) : Type -> Type where MkSame : Same x x`
fn same(alloc: Global) -> Result<Family, Fail> {
    let it = vec![in alloc; Term::Var(0)]?;
    let only = constructor(alloc, 8, "Main.MkSame", Vec::new(alloc), it)?;
    Ok(Family {
        id: item(7),
        name: Name::new(alloc, "Main.Same")?,
        params: vec![in alloc; Term::Sort(0)]?,
        indices: vec![in alloc; Term::Sort(0)]?,
        level: 1,
        constructors: vec![in alloc; only]?,
    })
}

/// `Digit`, a family of ten constructors without fields.
fn digit(alloc: Global) -> Result<Family, Fail> {
    let mut constructors = Vec::new(alloc);
    for number in 10..20 {
        let none = Vec::new(alloc);
        constructors.push(constructor(alloc, number, "Main.D", Vec::new(alloc), none)?)?;
    }
    Ok(Family {
        id: item(9),
        name: Name::new(alloc, "Main.Digit")?,
        params: Vec::new(alloc),
        indices: Vec::new(alloc),
        level: 0,
        constructors,
    })
}

/// Prim, `Nat`, `Vect`, `Same` and `Digit`. `plus`, item 3, has no entry: no head is asked of it.
pub fn known(alloc: Global) -> Result<Globals, Fail> {
    let mut globals = Globals::prim(alloc)?;
    add(alloc, &mut globals, nat(alloc)?)?;
    add(alloc, &mut globals, vect(alloc)?)?;
    add(alloc, &mut globals, same(alloc)?)?;
    add(alloc, &mut globals, digit(alloc)?)?;
    Ok(globals)
}
