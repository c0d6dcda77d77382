//! Clauses of a definition, whose body is put into the environment.

ghost use Rattle.std.specs.Prelude.{◌≡◌, OnErr};
ghost use Rattle.qtt_term.specs.Contexts.{part};
ghost use Rattle.qtt_term.specs.Entries.{entries, env};
ghost use Rattle.qtt_term.specs.Environment.{part_of};
ghost use Rattle.qtt_term.specs.View.{term};
ghost use Rattle.qtt_bidi.specs.Answers.{Gives};
ghost use Rattle.qtt_module.specs.GivenBodies.{GivesBody, by_clauses, of_clauses, signed_of};
ghost use Rattle.qtt_module.specs.GroupCalls.{given_of};
ghost use Rattle.qtt_module.specs.Sides.{group_of as group_asks};

use crate::groups::{Given, Group};
use crate::signed::Signed;
use qtt_bidi::Elaborator;
use qtt_holes::Hole;
use qtt_rules::ElabError;
use qtt_syntax::Clause;
use qtt_term::{Converter, Globals, Sigma, Term};
use qtt_usage::mult::Mult;
use std::alloc::Global;

/// The part in which a definition of this multiplicity is judged.
fn part_for(mult: Mult) -> Sigma
    ensures { part result ≡ part_of mult }
{
    match mult {
        Mult::Zero => Sigma::Erased,
        Mult::One | Mult::Many => Sigma::Run,
    }
}

/// What these clauses give, for a definition of this multiplicity and type.
fn given_as<C: Converter>(
    elaborator: Elaborator<'_, C>,
    signed: &Signed,
    clauses: &[Clause],
    mult: Mult,
    ty: &Term,
) -> Result<Given, ElabError>
    ensures { Gives (env (entries elaborator.entry.globals.now)) elaborator.entry.budget
        (group_asks (by_clauses (entries elaborator.entry.globals.now) (part_of mult)
        (term ty.now) (signed_of signed.now) clauses.now)) given_of result }
{
    let group = Group {
        elaborator,
        sigma: part_for(mult),
        clauses,
        name: &signed.name,
        ty,
        labels: &signed.labels,
        may_miss: signed.may_miss,
    };
    group.given()
}

/// What the clauses of a definition of the environment give.
fn given_over<C: Converter>(
    alloc: Global,
    converter: &C,
    budget: u64,
    globals: &Globals,
    signed: &Signed,
    clauses: &[Clause],
) -> Result<Given, ElabError>
    ensures { Gives (env (entries globals.now)) budget
        (group_asks (of_clauses (entries globals.now) (signed_of signed.now) clauses.now))
        given_of result }
{
    let elaborator = Elaborator {
        alloc,
        converter,
        budget,
        globals,
    };
    match globals.definition(signed.id) {
        Some(known) => given_as(elaborator, signed, clauses, known.mult, &known.ty),
        None => given_as(elaborator, signed, clauses, Mult::Zero, &Term::Sort(0)),
    }
}

/// Judges the clauses of a definition that has a signature, and gives it its body where none of
/// them has a hole; else the holes.
pub fn add_body<C: Converter>(
    alloc: Global,
    converter: &C,
    budget: u64,
    globals: &mut Globals,
    signed: &Signed,
    clauses: &[Clause],
) -> Result<Vec<Hole>, ElabError>
    ensures gives { GivesBody (entries globals.old) (entries globals.new) budget
        (of_clauses (entries globals.old) (signed_of signed.now) clauses.now) signed.now.id
        result }
    ensures err { OnErr result (entries globals.new ≡ entries globals.old) }
{
    match given_over(alloc, converter, budget, globals, signed, clauses)? {
        Given::Holes(holes) => Ok(holes),
        Given::Body(body) => {
            if !globals.is_open(signed.id) || !body.is_closed() {
                return Err(ElabError::Memory);
            }
            globals.set_body(signed.id, body)?;
            Ok(Vec::new(alloc))
        }
    }
}
