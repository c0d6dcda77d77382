//! Erasure.

ghost use Rattle.std.specs.Prelude.{◌≡◌, ◌++◌, IfOk, [], drop};
ghost use Rattle.qtt_term.specs.Term.{node};
ghost use Rattle.qtt_term.specs.Signature.{family_at};
ghost use Rattle.qtt_term.specs.View.{term, terms, case as term_case, branches as term_branches};
ghost use Rattle.qtt_term.specs.Globals.{env as env_of};
ghost use Rattle.qtt_erase.specs.Binding.{Tree, ∅, ◌◂◌};
ghost use Rattle.qtt_erase.specs.Erasure.{erase as erasure, extend, field_slots, lam_operator, slot_at, place_at, variable};
ghost use Rattle.qtt_erase.specs.Erased.{erased_at, erased_branches};
ghost use Rattle.qtt_erase.specs.View.{lean, leans, branch, lean_branches};
ghost use Rattle.qtt_erase.specs.Scopes.{slots};

use crate::lean::{Lean, LeanBranch};
use crate::multiplicities::{act_mults, field_mults, places, prim_mults};
use crate::scope::{Scope, Slot, argument_slot, field_slot};
use qtt_base::{GlobalId, MemoryError};
use qtt_term::globals::Globals;
use qtt_term::{Branch, Case, Term};
use qtt_usage::mult::Mult;
use std::alloc::Global;

/// The erasure of a term in which no variable is free.
pub fn erase(alloc: Global, env: &Globals, t: &Term) -> Result<Lean, MemoryError>
    ensures { IfOk result (λ l. lean l ≡ erasure (env_of env.now) [] (term t.now)) }
{
    erased(alloc, env, &Scope::Empty, t)
}

fn erased_var(scope: &Scope<'_>, index: u32) -> Lean
    ensures { lean result ≡ variable (slot_at (slots scope.now) index)
        (place_at (slots scope.now) index) }
{
    match scope.slot(index) {
        Slot::Filled => Lean::Var(scope.place(index)),
        Slot::Gone | Slot::Blank => Lean::Ty,
    }
}

/// A function of that multiplicity.
fn abstraction(mult: Mult, body: Box<Lean>) -> Lean
    ensures { lean result ≡ Tree.node (lam_operator mult) (lean body.value ◂ ∅) }
{
    match mult {
        Mult::Zero => Lean::Thunk(body),
        Mult::One | Mult::Many => Lean::Fun(body),
    }
}

#[cycle(erased)]
#[tactic(auto, using(crate::proofs::Components::erasures))]
fn erased(
    alloc: Global,
    env: &Globals,
    scope: &Scope<'_>,
    source: &Term,
) -> Result<Lean, MemoryError>
    ensures { IfOk result (λ l. lean l ≡ erasure (env_of env.now) (slots scope.now)
        (term source.now)) }
{
    match source {
        Term::Var(index) => Ok(erased_var(scope, *index)),
        Term::Sort(_) | Term::Pi(_, _, _) => Ok(Lean::Ty),
        Term::Fam(_, _) => Ok(Lean::Ty),
        Term::IntTy | Term::StringTy | Term::HandleTy | Term::IoTy(_, _) => Ok(Lean::Ty),
        Term::Lam(mult, _, body) => {
            let inner = Scope::Bound(&*scope, argument_slot(*mult));
            let body = Box::new(alloc, erased(alloc, env, &inner, body)?)?;
            Ok(abstraction(*mult, body))
        }
        Term::App(mult, f, a) => {
            let f = Box::new(alloc, erased(alloc, env, scope, f)?)?;
            match mult {
                Mult::Zero => Ok(Lean::Force(f)),
                Mult::One | Mult::Many => {
                    let a = Box::new(alloc, erased(alloc, env, scope, a)?)?;
                    Ok(Lean::App(f, a))
                }
            }
        }
        Term::Con(con, _, fields) => {
            let mults = field_mults(alloc, env, con.family, con.place as usize)?;
            let fields = erased_args(alloc, env, scope, &mults, fields, Vec::new(alloc))?;
            Ok(Lean::Con(con.place, fields))
        }
        Term::Case(case) => erased_case(alloc, env, scope, case),
        Term::Delete(delete) => {
            let scrutinee = Box::new(alloc, erased(alloc, env, scope, &delete.scrutinee)?)?;
            let body = erased(alloc, env, scope, &delete.branch)?;
            let mut branches = Vec::new(alloc);
            branches.push(LeanBranch { fields: 0, body })?;
            Ok(Lean::Case(scrutinee, branches))
        }
        Term::Def(id) => Ok(Lean::Def(*id)),
        Term::Lit(lit) => Ok(Lean::Lit(lit.copy()?)),
        Term::Prim(prim, args) => {
            let mults = prim_mults(alloc, *prim)?;
            let args = erased_args(alloc, env, scope, &mults, args, Vec::new(alloc))?;
            Ok(Lean::Prim(*prim, args))
        }
        Term::Act(kind, types, args) => {
            let mults = act_mults(alloc, *kind)?;
            let kept = erased_args(alloc, env, scope, &mults, types, Vec::new(alloc))?;
            let kept = erased_args(alloc, env, scope, from(&mults, types.len()), args, kept)?;
            Ok(Lean::Act(*kind, kept))
        }
        Term::Trap(_) => Ok(Lean::Trap),
        Term::Tape(number) => Ok(Lean::Tape(*number)),
    }
}

/// What is behind so many.
fn from(mults: &[Mult], count: usize) -> &[Mult]
    ensures { result.now ≡ drop count mults.now }
{
    if count < mults.len() {
        &mults[count..]
    } else {
        &[]
    }
}

/// Those of the terms that are not at 0, put behind the others.
#[cycle(erased)]
#[tactic(auto, using(crate::proofs::Components::erasures))]
fn erased_args(
    alloc: Global,
    env: &Globals,
    scope: &Scope<'_>,
    mults: &[Mult],
    sources: &[Term],
    mut kept: Vec<Lean>,
) -> Result<Vec<Lean>, MemoryError>
    ensures { IfOk result (λ v. leans v.items ≡ leans kept.items ++ erased_at (env_of env.now)
        (slots scope.now) mults.now (terms sources.now)) }
{
    for (k, source) in sources.iter().enumerate() {
        match mults.get(k) {
            Some(Mult::One | Mult::Many) => kept.push(erased(alloc, env, scope, source)?)?,
            Some(Mult::Zero) | None => {}
        }
    }
    Ok(kept)
}

#[cycle(erased)]
#[tactic(auto, using(crate::proofs::Components::erasures))]
fn erased_case(
    alloc: Global,
    env: &Globals,
    scope: &Scope<'_>,
    source: &Case,
) -> Result<Lean, MemoryError>
    ensures { IfOk result (λ l. lean l ≡ erasure (env_of env.now) (slots scope.now)
        (term_case source.now)) }
{
    let scrutinee = Box::new(alloc, erased(alloc, env, scope, &source.scrutinee)?)?;
    let branches = erased_all(
        alloc,
        env,
        scope,
        source.mult,
        source.family,
        &source.branches,
    )?;
    Ok(Lean::Case(scrutinee, branches))
}

/// The branches of a family's constructors, of a Case at that multiplicity.
#[cycle(erased)]
#[tactic(auto, using(crate::proofs::Components::erasures))]
fn erased_all(
    alloc: Global,
    env: &Globals,
    scope: &Scope<'_>,
    mult: Mult,
    family: GlobalId,
    sources: &[Branch],
) -> Result<Vec<LeanBranch>, MemoryError>
    ensures { IfOk result (λ v. lean_branches v.items ≡ erased_branches (env_of env.now)
        (slots scope.now) mult (family_at (env_of env.now) family).constructors
        (term_branches sources.now)) }
{
    let mut branches = Vec::new(alloc);
    for (place, source) in sources.iter().enumerate() {
        let mults = field_mults(alloc, env, family, place)?;
        branches.push(LeanBranch {
            fields: places(mult, &mults, source.fields),
            body: erased_body(alloc, env, scope, mult, &mults, source.fields, &source.body)?,
        })?;
    }
    Ok(branches)
}

/// A body under so many fields of these multiplicities.
#[cycle(erased)]
#[tactic(auto, using(crate::proofs::Components::erasures))]
fn erased_body(
    alloc: Global,
    env: &Globals,
    scope: &Scope<'_>,
    mult: Mult,
    mults: &[Mult],
    fields: u32,
    body: &Term,
) -> Result<Lean, MemoryError>
    ensures { IfOk result (λ l. lean l ≡ erasure (env_of env.now)
        (extend (slots scope.now) (field_slots mult mults.now fields)) (term body.now)) }
{
    if fields == 0 {
        return erased(alloc, env, scope, body);
    }
    match mults {
        [] => {
            let inner = Scope::Bound(&*scope, Slot::Gone);
            erased_body(alloc, env, &inner, mult, mults, fields - 1, body)
        }
        [first, rest @ ..] => {
            let inner = Scope::Bound(&*scope, field_slot(mult, *first));
            erased_body(alloc, env, &inner, mult, rest, fields - 1, body)
        }
    }
}
