//! Single contractions.

ghost use Rattle.std.specs.Prelude.{◌≡◌, map, option_map, IfOk};
ghost use Rattle.qtt_term.specs.declared.term.Case.{out-Case};
ghost use Rattle.qtt_term.specs.Substitution.{sub, push};
ghost use Rattle.qtt_term.specs.Term.{ε, ◌▸◌, same_id};
ghost use Rattle.qtt_term.specs.Signature.{Env, definition_at, truth as truth_term};
ghost use Rattle.qtt_term.specs.Contraction.{chain, as_con, beta, iota, when_refl, computed as computed_of};
ghost use Rattle.qtt_term.specs.Question.{head_step};
ghost use Rattle.qtt_term.specs.Globals.{env as env_of};
ghost use Rattle.qtt_term.specs.View.{term, terms, branches, side_by_side};
ghost use Rattle.qtt_conv.specs.Frames.{body_for};
ghost use Rattle.qtt_envconv.specs.Closures.{closure as closure_of, values as values_of, IsForm};
ghost use Rattle.qtt_envconv.specs.Frames.{plug, contracted, case_rest, focus as focus_of, reduct, Fits, IsFrame, IsFocus};
ghost use Rattle.qtt_envconv.specs.Shapes.{literal};

use crate::closure::{Closure, Values, placed};
use crate::frame::Frame;
use crate::literal::{Literal, copied_all};
use crate::spine::Focus;
use bumpalo::Bump;
use qtt_base::{GlobalId, MemoryError, ModuleId};
use qtt_prims::{PrimAnswer, Primitive, apply};
use qtt_term::{Case, ConId, Delete, Globals, Term};
use qtt_usage::mult::Mult;
use std::alloc::Global;

/// The families Bool and Eq of the module Prim.
const BOOL: GlobalId = GlobalId {
    module: ModuleId(0),
    item: 4,
};

const EQ: GlobalId = GlobalId {
    module: ModuleId(0),
    item: 13,
};

/// What a term contracts to.
#[derive(Clone, Copy)]
pub enum Reduct<'a> {
    Closure(Closure<'a>),
    Literal(Literal<'a>),
}

/// What contracts by itself, where the head of none of its components is taken.
pub fn focus_contracted<'a>(
    alloc: Global,
    arena: &'a Bump,
    env: &'a Globals,
    focus: &Focus<'a>,
) -> Result<Option<Reduct<'a>>, MemoryError>
    requires { IsFocus focus.now }
    ensures { IfOk result (λ o. option_map reduct o ≡ head_step (env_of env.now)
        (focus_of focus.now)) }
{
    match focus {
        Focus::Closure(closure) => match closure.code {
            Term::Def(id) => match body_of(env, *id) {
                Some(body) => Ok(Some(Reduct::Closure(Closure::of(arena, body)?))),
                None => Ok(None),
            },
            _ => Ok(None),
        },
        Focus::Call(closure, literals) => match closure.code {
            Term::Prim(prim, _) => computed(alloc, arena, *prim, literals),
            _ => Ok(None),
        },
        Focus::Variable(_) | Focus::Literal(_) => Ok(None),
    }
}

/// What a frame with a focus in its place contracts to.
pub fn frame_contracted<'a>(
    arena: &'a Bump,
    frame: &Frame<'a>,
    focus: &Focus<'a>,
) -> Result<Option<Closure<'a>>, MemoryError>
    requires frame { IsFrame frame.now }
    requires focus { IsFocus focus.now }
    requires fits { Fits frame.now (focus_of focus.now) }
    ensures { IfOk result (λ o. (E : Env) → option_map closure_of o ≡ contracted E
        (plug frame.now (focus_of focus.now))) }
{
    let Focus::Closure(inner) = focus else {
        return Ok(None);
    };
    let around = frame.closure;
    match around.code {
        Term::App(mult, _, argument) => applied(arena, *mult, *inner, around.at(argument)),
        Term::Case(case) => chosen(arena, around.values, case, *inner),
        Term::Delete(delete) => Ok(deleted(around, delete, *inner)),
        _ => Ok(None),
    }
}

/// A function applied at its own multiplicity.
fn applied<'a>(
    arena: &'a Bump,
    mult: Mult,
    function: Closure<'a>,
    argument: Closure<'a>,
) -> Result<Option<Closure<'a>>, MemoryError>
    requires { IsForm (term function.code.now) }
    ensures { IfOk result (λ o. option_map closure_of o ≡ beta mult
        (closure_of function.entry ▸ closure_of argument.entry ▸ ε)) }
{
    match function.code {
        Term::Lam(declared, _, code) => {
            if mult == *declared {
                let values = function.values.with(arena, argument)?;
                Ok(Some(Closure { code, values }))
            } else {
                Ok(None)
            }
        }
        _ => Ok(None),
    }
}

/// The branch of a constructor of the Case's family, with the fields in their places.
fn chosen<'a>(
    arena: &'a Bump,
    values: &'a Values<'a>,
    case: &'a Case,
    scrutinee: Closure<'a>,
) -> Result<Option<Closure<'a>>, MemoryError>
    requires { IsForm (term scrutinee.code.now) }
    ensures { IfOk result (λ o. option_map closure_of o ≡ iota (out-Case case.now).family
        (map (λ b. b.0) (branches (out-Case case.now).branches.items))
        (case_rest (values_of values.now) case.now (closure_of scrutinee.entry))) }
{
    match scrutinee.code {
        Term::Con(con, _, fields) => match branch_for(case, *con, fields.len()) {
            Some(code) => {
                let values = with_fields(arena, values, scrutinee, fields)?;
                Ok(Some(Closure { code, values }))
            }
            None => Ok(None),
        },
        _ => Ok(None),
    }
}

/// The values with the fields of a constructor for the newest variables, the last one for the
/// newest.
fn with_fields<'a>(
    arena: &'a Bump,
    values: &'a Values<'a>,
    constructor: Closure<'a>,
    fields: &'a [Term],
) -> Result<&'a Values<'a>, MemoryError>
    ensures { IfOk result (λ r. values_of r.now ≡ push
        (side_by_side (map (sub (values_of constructor.entry.values.now)) (terms fields.now)))
        (values_of values.now)) }
{
    match fields.split_first() {
        Some((field, later)) => {
            let values = values.with(arena, constructor.at(field))?;
            with_fields(arena, values, constructor, later)
        }
        None => Ok(values),
    }
}

/// The body of the branch of a constructor with so many fields.
fn branch_for(case: &Case, con: ConId, fields: usize) -> Option<&Term>
    ensures { option_map (λ t. term t.now) result ≡ body_for (out-Case case.now).family
        (branches (out-Case case.now).branches.items) con fields }
{
    if !same_id(case.family, con.family) {
        return None;
    }
    let branch = case.branches.get(con.place as usize)?;
    if fields == branch.fields as usize {
        Some(&branch.body)
    } else {
        None
    }
}

/// The branch of a Delete of a proof by reflexivity.
fn deleted<'a>(around: Closure<'a>, delete: &'a Delete, proof: Closure<'a>) -> Option<Closure<'a>>
    requires { IsForm (term proof.code.now) }
    ensures { option_map closure_of result ≡ chain (as_con (closure_of proof.entry))
        (when_refl (sub (values_of around.entry.values.now) (term delete.now.branch))) }
{
    match proof.code {
        Term::Con(con, _, _) if same_id(con.family, EQ) && con.place == 0 => {
            Some(around.at(&delete.branch))
        }
        _ => None,
    }
}

fn same_id(one: GlobalId, other: GlobalId) -> bool
    ensures { result ≡ same_id one other }
{
    one.module.0 == other.module.0 && one.item == other.item
}

/// The body of a definition.
fn body_of(env: &Globals, id: GlobalId) -> Option<&Term>
    ensures { option_map (λ b. term b.now) result ≡ (definition_at (env_of env.now) id).body }
{
    match env.definition(id) {
        Some(definition) => definition.body.as_ref(),
        None => None,
    }
}

/// What a primitive answers on literals.
fn computed<'a>(
    alloc: Global,
    arena: &'a Bump,
    prim: Primitive,
    literals: &[Literal<'a>],
) -> Result<Option<Reduct<'a>>, MemoryError>
    ensures { IfOk result (λ o. option_map reduct o ≡ computed_of prim
        (map literal literals.now)) }
{
    match apply(alloc, prim, &copied_all(alloc, literals)?) {
        Ok(PrimAnswer::Value(literal)) => {
            Ok(Some(Reduct::Literal(Literal::placed(arena, literal)?)))
        }
        Ok(PrimAnswer::Truth(truth)) => {
            let code = placed(arena, truth_of(alloc, truth))?;
            Ok(Some(Reduct::Closure(Closure::of(arena, code)?)))
        }
        Ok(PrimAnswer::DivisionByZero) | Ok(PrimAnswer::IllTyped) => Ok(None),
        Err(_) => Err(MemoryError),
    }
}

fn truth_of(alloc: Global, truth: bool) -> Term
    ensures { term result ≡ truth_term truth }
{
    let con = ConId {
        family: BOOL,
        place: if truth { 1 } else { 0 },
    };
    Term::Con(con, Vec::new(alloc), Vec::new(alloc))
}
