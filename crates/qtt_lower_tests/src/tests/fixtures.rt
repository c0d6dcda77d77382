//! Environments of small terms, and their listings.

ghost use Rattle.std.specs.Prelude.{◌<◌};

use qtt_base::{GlobalId, Name};
use qtt_code::listing;
use qtt_lower::lower_all;
use qtt_programs::building::{add, constructor as make, plain_family};
use qtt_programs::terms::item;
use qtt_term::{Branch, Case, Constructor, Family, Globals, Term};
use qtt_usage::mult::Mult;
use std::alloc::Global;
use std::test::Fail;
use std::thread::Threads;

/// Adds an item of Main with its body, in which no variable may be free. Its type is left out.
pub fn define(
    alloc: Global,
    globals: &mut Globals,
    number: u32,
    name: &str,
    mult: Mult,
    body: Term,
) -> Result<(), Fail> {
    let id = item(number);
    if !globals.is_absent(id) || !body.is_closed() {
        return Err(Fail::from("the definition may not be added"));
    }
    globals.add_signature(id, Name::new(alloc, name)?, mult, Term::Sort(0))?;
    if !globals.is_open(id) {
        return Err(Fail::from("the definition has a body"));
    }
    globals.set_body(id, body)?;
    Ok(())
}

/// A constructor of Main with fields at these multiplicities, whose types are left out.
fn constructor(
    alloc: Global,
    number: u32,
    name: &str,
    mults: &[Mult],
) -> Result<Constructor, Fail> {
    let mut fields = Vec::new(alloc);
    for mult in mults {
        fields.push((*mult, Term::Sort(0)))?;
    }
    make(alloc, number, name, fields, Vec::new(alloc))
}

/// Adds a family of Main with two constructors, which are the next two items, with fields at
/// these multiplicities.
pub fn add_family(
    alloc: Global,
    globals: &mut Globals,
    number: u32,
    first: &[Mult],
    second: &[Mult],
) -> Result<(), Fail>
    requires { number < 100 }
{
    let first = constructor(alloc, number + 1, "Main.first", first)?;
    let second = constructor(alloc, number + 2, "Main.second", second)?;
    let family = Family {
        id: item(number),
        ..plain_family(alloc, "Main.family", vec![in alloc; first, second]?)?
    };
    add(alloc, globals, family)
}

/// A function at arguments.
pub fn applied(alloc: Global, function: Term, args: Vec<(Mult, Term)>) -> Result<Term, Fail> {
    let mut call = function;
    for (mult, arg) in args {
        call = Term::app(alloc, mult, call, arg)?;
    }
    Ok(call)
}

/// Functions of arguments at these multiplicities, the outermost first.
pub fn functions(alloc: Global, mults: &[Mult], body: Term) -> Result<Term, Fail> {
    let mut function = body;
    for mult in mults.iter().rev() {
        function = Term::lam(alloc, *mult, Term::Sort(0), function)?;
    }
    Ok(function)
}

/// A Case over a family without indices.
pub fn case(
    alloc: Global,
    mult: Mult,
    family: GlobalId,
    scrutinee: Term,
    branches: Vec<Branch>,
) -> Result<Term, Fail> {
    let case = Case {
        mult,
        family,
        params: Vec::new(alloc),
        indices: 0,
        motive: Term::Sort(0),
        branches,
        scrutinee,
    };
    Ok(Term::Case(Box::new(alloc, case)?))
}

pub fn trap(alloc: Global) -> Result<Term, Fail> {
    Ok(Term::Trap(Box::new(alloc, Term::Sort(0))?))
}

/// The listing of an environment's program, lowered by so many at once.
pub fn listed<R: Threads + Sync>(
    rt: &R,
    alloc: Global,
    globals: &Globals,
    jobs: u32,
) -> Result<Vec<u8>, Fail>
    requires { 0 < jobs }
{
    let compiled = lower_all(rt, alloc, globals, jobs)?;
    Ok(listing(alloc, compiled.program(), globals)?)
}
