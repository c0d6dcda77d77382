//! Terms over the module Prim.

use super::table::Made;
use qtt_base::{GlobalId, ModuleId};
use qtt_prims::{ActKind, Lit, Primitive, Text};
use qtt_term::{Branch, Case, ConId, Delete, IoKind, Term, TermError};
use qtt_usage::mult::Mult;
use std::alloc::Global;

pub const ZERO: Mult = Mult::Zero;

pub const ONE: Mult = Mult::One;

pub const MANY: Mult = Mult::Many;

pub fn prim_item(item: u32) -> GlobalId {
    GlobalId {
        module: ModuleId(0),
        item,
    }
}

pub fn int(value: i64) -> Made {
    Ok(Term::Lit(Lit::Int(value)))
}

pub fn text(alloc: Global) -> Made {
    Ok(Term::Lit(Lit::Text(Text::from_str(alloc, "a")?)))
}

pub fn pi(alloc: Global, mult: Mult, domain: Made, codomain: Made) -> Made {
    Term::pi(alloc, mult, domain?, codomain?)
}

pub fn lam(alloc: Global, mult: Mult, domain: Made, body: Made) -> Made {
    Term::lam(alloc, mult, domain?, body?)
}

pub fn app(alloc: Global, mult: Mult, function: Made, argument: Made) -> Made {
    Term::app(alloc, mult, function?, argument?)
}

/// A family of Prim without parameters and indices.
pub fn family(alloc: Global, number: u32) -> Made {
    Ok(Term::Fam(prim_item(number), Vec::new(alloc)))
}

pub fn truth(alloc: Global, place: u32) -> Made {
    let con = ConId {
        family: prim_item(4),
        place,
    };
    Ok(Term::Con(con, Vec::new(alloc), Vec::new(alloc)))
}

/// The second constructor of a family of Prim, with so many numbers as parameters and as fields.
pub fn constructor(alloc: Global, number: u32, params: u32, fields: u32) -> Made {
    let con = ConId {
        family: prim_item(number),
        place: 1,
    };
    Ok(Term::Con(con, numbers(alloc, params)?, numbers(alloc, fields)?))
}

fn numbers(alloc: Global, count: u32) -> Result<Vec<Term>, TermError> {
    let mut all = Vec::new(alloc);
    for _ in 0..count {
        all.push(int(3)?)?;
    }
    Ok(all)
}

/// A line of the input.
pub fn got(alloc: Global, line: Made) -> Made {
    let con = ConId {
        family: prim_item(5),
        place: 1,
    };
    Ok(Term::Con(con, Vec::new(alloc), vec![in alloc; line?]?))
}

pub fn equality(alloc: Global, ty: Made, left: Made, right: Made) -> Made {
    Ok(Term::Fam(prim_item(13), vec![in alloc; ty?, left?, right?]?))
}

pub fn reflexivity(alloc: Global, ty: Made, point: Made) -> Made {
    let con = ConId {
        family: prim_item(13),
        place: 0,
    };
    Ok(Term::Con(con, vec![in alloc; ty?, point?]?, Vec::new(alloc)))
}

/// A match on a family without parameters and indices.
pub fn matching(
    alloc: Global,
    mult: Mult,
    family: GlobalId,
    motive: Made,
    branches: Vec<Branch>,
    scrutinee: Made,
) -> Made {
    let case = Case {
        mult,
        family,
        params: Vec::new(alloc),
        indices: 0,
        motive: motive?,
        branches,
        scrutinee: scrutinee?,
    };
    Ok(Term::Case(Box::new(alloc, case)?))
}

/// A match on a Bool.
pub fn choice(
    alloc: Global,
    mult: Mult,
    motive: Made,
    no: Made,
    yes: Made,
    scrutinee: Made,
) -> Made {
    let no = Branch {
        fields: 0,
        body: no?,
    };
    let yes = Branch {
        fields: 0,
        body: yes?,
    };
    let branches = vec![in alloc; no, yes]?;
    matching(alloc, mult, prim_item(4), motive, branches, scrutinee)
}

/// A match on a Bool, or on another family of Prim, with so many parameters, indices and fields
/// of its branches.
pub fn counted(alloc: Global, number: u32, params: u32, indices: u32, fields: &[u32]) -> Made {
    let mut branches = Vec::new(alloc);
    for count in fields {
        branches.push(Branch {
            fields: *count,
            body: Term::IntTy,
        })?;
    }
    let case = Case {
        mult: MANY,
        family: prim_item(number),
        params: numbers(alloc, params)?,
        indices,
        motive: Term::Sort(0),
        branches,
        scrutinee: truth(alloc, 1)?,
    };
    Ok(Term::Case(Box::new(alloc, case)?))
}

/// A match, with the answer 1, on a proof that this point of this type equals another.
pub fn transport(alloc: Global, ty: Made, point: Made, scrutinee: Made) -> Made {
    let same = Branch {
        fields: 0,
        body: int(1)?,
    };
    let case = Case {
        mult: MANY,
        family: prim_item(13),
        params: vec![in alloc; ty?, point?]?,
        indices: 1,
        motive: Term::IntTy,
        branches: vec![in alloc; same]?,
        scrutinee: scrutinee?,
    };
    Ok(Term::Case(Box::new(alloc, case)?))
}

/// A match on a proof that a point equals itself.
pub fn deletion(
    alloc: Global,
    mult: Mult,
    (ty, point): (Made, Made),
    motive: Made,
    branch: Made,
    scrutinee: Made,
) -> Made {
    let delete = Delete {
        mult,
        ty: ty?,
        point: point?,
        motive: motive?,
        branch: branch?,
        scrutinee: scrutinee?,
    };
    Ok(Term::Delete(Box::new(alloc, delete)?))
}

pub fn trap(alloc: Global, ty: Made) -> Made {
    Ok(Term::Trap(Box::new(alloc, ty?)?))
}

pub fn io(alloc: Global, kind: IoKind, of: Made) -> Made {
    Ok(Term::IoTy(kind, Box::new(alloc, of?)?))
}

pub fn prim(alloc: Global, prim: Primitive, argument: Made) -> Made {
    Ok(Term::Prim(prim, vec![in alloc; argument?]?))
}

/// An action without type arguments.
pub fn action(alloc: Global, kind: ActKind, argument: Made) -> Made {
    Ok(Term::Act(kind, Vec::new(alloc), vec![in alloc; argument?]?))
}

pub fn pure(alloc: Global, ty: Made, value: Made) -> Made {
    Ok(Term::Act(ActKind::Pure, vec![in alloc; ty?]?, vec![in alloc; value?]?))
}
