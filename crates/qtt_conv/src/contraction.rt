//! Single contractions.

ghost use Rattle.std.specs.Prelude.{◌≡◌, map, option_map, slice_get, IfOk};
ghost use Rattle.qtt_term.specs.Term.{ε, ◌▸◌, ◌+++◌, same_id};
ghost use Rattle.qtt_term.specs.Signature.{Env, definition_at, truth as truth_term};
ghost use Rattle.qtt_term.specs.Contraction.{Made, chain, as_con, beta, iota, deletion, literals, computed, contract};
ghost use Rattle.qtt_term.specs.Globals.{env as env_of};
ghost use Rattle.qtt_term.specs.View.{term, terms, branches, side_by_side};
ghost use Rattle.qtt_conv.specs.Frames.{form_of, parts_of, delete_parts, Fits, body_for, focus_step};

use crate::frame::{Branching, Deletion, Frame, leading_literals};
use qtt_base::{GlobalId, MemoryError, ModuleId};
use qtt_prims::{Lit, PrimAnswer, Primitive, apply};
use qtt_term::{Branch, ConId, Globals, Term};
use qtt_usage::mult::Mult;
use std::alloc::Global;
use std::slice;

/// The families Bool and Eq of the module Prim.
const BOOL: GlobalId = GlobalId {
    module: ModuleId(0),
    item: 4,
};

const EQ: GlobalId = GlobalId {
    module: ModuleId(0),
    item: 13,
};

/// What a term contracts to by itself, where the head of none of its components is taken.
pub fn focus_contracted(
    alloc: Global,
    env: &Globals,
    focus: &Term,
) -> Result<Option<Term>, MemoryError>
    ensures { IfOk result (λ o. option_map term o ≡ focus_step (env_of env.now) (term focus.now)) }
{
    match focus {
        Term::Def(id) => match body_of(env, *id) {
            Some(body) => Ok(Some(body.copy(alloc)?)),
            None => Ok(None),
        },
        Term::Prim(prim, arguments) => call_contracted(alloc, *prim, arguments),
        _ => Ok(None),
    }
}

/// What a frame with a term in its place contracts to.
pub fn frame_contracted(
    alloc: Global,
    frame: &Frame,
    inner: &Term,
) -> Result<Option<Term>, MemoryError>
    ensures { IfOk result (λ o. (E : Env) → Fits frame.now (term inner.now) →
        option_map term o ≡ contract E (form_of frame.now) (parts_of frame.now (term inner.now))) }
{
    match frame {
        Frame::Argument(mult, argument) => applied(alloc, *mult, inner, argument),
        Frame::Case(branching) => chosen(alloc, branching, inner),
        Frame::Delete(deletion) => deleted(alloc, deletion, inner),
        Frame::Prim(_, _, _) => Ok(None),
    }
}

/// A function applied at its own multiplicity.
fn applied(
    alloc: Global,
    mult: Mult,
    function: &Term,
    argument: &Term,
) -> Result<Option<Term>, MemoryError>
    ensures { IfOk result (λ o. option_map term o ≡ beta mult
        (term function.now ▸ term argument.now ▸ ε)) }
{
    match function {
        Term::Lam(declared, _, body) => {
            if mult == *declared {
                Ok(Some(body.subst(alloc, slice::from_ref(argument))?))
            } else {
                Ok(None)
            }
        }
        _ => Ok(None),
    }
}

/// The branch of a constructor of the Case's family, with the fields in their places.
fn chosen(
    alloc: Global,
    branching: &Branching,
    scrutinee: &Term,
) -> Result<Option<Term>, MemoryError>
    ensures { IfOk result (λ o. option_map term o ≡ iota branching.now.family
        (map (λ b. b.0) (branches branching.now.branches.items))
        (term branching.now.motive ▸
        (side_by_side (map (λ b. b.1) (branches branching.now.branches.items)) +++
        (term scrutinee.now ▸ ε)))) }
{
    match as_constructor(scrutinee) {
        Some((con, fields)) => match branch_for(branching, con, fields.len()) {
            Some(body) => Ok(Some(body.subst(alloc, fields)?)),
            None => Ok(None),
        },
        None => Ok(None),
    }
}

/// The body of the branch of a constructor with so many fields.
fn branch_for(branching: &Branching, con: ConId, fields: usize) -> Option<&Term>
    ensures { option_map (λ t. term t.now) result ≡ body_for branching.now.family
        (branches branching.now.branches.items) con fields }
{
    if !same_id(branching.family, con.family) {
        return None;
    }
    let branch = branch_at(&branching.branches, con.place)?;
    if fields == branch.fields as usize {
        Some(&branch.body)
    } else {
        None
    }
}

fn branch_at(branches: &[Branch], place: u32) -> Option<&Branch>
    ensures { option_map (λ b. b.now) result ≡ slice_get branches.now place }
{
    branches.get(place as usize)
}

/// The branch of a Delete of a proof by reflexivity.
fn deleted(alloc: Global, around: &Deletion, proof: &Term) -> Result<Option<Term>, MemoryError>
    ensures { IfOk result (λ o. option_map term o ≡ deletion
        (delete_parts around.now (term proof.now))) }
{
    match as_constructor(proof) {
        Some((con, _)) if same_id(con.family, EQ) && con.place == 0 => {
            Ok(Some(around.branch.copy(alloc)?))
        }
        _ => Ok(None),
    }
}

/// A constructor with its fields.
fn as_constructor(t: &Term) -> Option<(ConId, &[Term])>
    ensures { option_map (λ r. Made.made r.0.family r.0.place (side_by_side (terms r.1.now)))
        result ≡ as_con (term t.now) }
{
    match t {
        Term::Con(con, _, fields) => Some((*con, fields)),
        _ => None,
    }
}

fn same_id(one: GlobalId, other: GlobalId) -> bool
    ensures { result ≡ same_id one other }
{
    one.module.0 == other.module.0 && one.item == other.item
}

/// The body of a definition.
fn body_of(env: &Globals, id: GlobalId) -> Option<&Term>
    ensures { option_map (λ b. term b.now) result ≡ (definition_at (env_of env.now) id).body }
{
    match env.definition(id) {
        Some(definition) => definition.body.as_ref(),
        None => None,
    }
}

/// A primitive on literals.
fn call_contracted(
    alloc: Global,
    prim: Primitive,
    arguments: &[Term],
) -> Result<Option<Term>, MemoryError>
    ensures { IfOk result (λ o. option_map term o ≡ chain
        (literals (side_by_side (terms arguments.now))) (computed prim)) }
{
    let (values, rest) = leading_literals(alloc, arguments)?;
    if rest.is_empty() {
        computed(alloc, prim, &values)
    } else {
        Ok(None)
    }
}

/// What a primitive answers on literals, as a term.
fn computed(alloc: Global, prim: Primitive, values: &[Lit]) -> Result<Option<Term>, MemoryError>
    ensures { IfOk result (λ o. option_map term o ≡ computed prim values.now) }
{
    match apply(alloc, prim, values) {
        Ok(PrimAnswer::Value(literal)) => Ok(Some(Term::Lit(literal))),
        Ok(PrimAnswer::Truth(truth)) => Ok(Some(truth_of(alloc, truth))),
        Ok(PrimAnswer::DivisionByZero) | Ok(PrimAnswer::IllTyped) => Ok(None),
        Err(_) => Err(MemoryError),
    }
}

fn truth_of(alloc: Global, truth: bool) -> Term
    ensures { term result ≡ truth_term truth }
{
    let con = ConId {
        family: BOOL,
        place: if truth { 1 } else { 0 },
    };
    Term::Con(con, Vec::new(alloc), Vec::new(alloc))
}
