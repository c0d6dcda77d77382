//! The components of a term, in order.

ghost use Rattle.std.specs.Prelude.{◌≡◌, ◌++◌, ◌∷◌, [], map, IfOk};
ghost use Rattle.qtt_term.specs.View.{term, terms, case, delete, branches as branches_of, side_by_side};
ghost use Rattle.qtt_confluence.specs.Heads.{parts};

use qtt_base::MemoryError;
use qtt_term::{Branch, Case, Delete, Term};
use std::alloc::Global;
use std::mem;

/// The components, in the order of their numbers.
#[tactic(auto, using(crate::proofs::Parts::part_lists))]
pub fn components(alloc: Global, mut t: Term) -> Result<Vec<Term>, MemoryError>
    ensures { IfOk result (λ v. side_by_side (terms v.items) ≡ parts (term t)) }
{
    match &mut t {
        Term::Pi(_, a, b) => pair(alloc, a, b),
        Term::Lam(_, a, b) => pair(alloc, a, b),
        Term::App(_, a, b) => pair(alloc, a, b),
        Term::Fam(_, all) => Ok(emptied(alloc, all)),
        Term::Prim(_, all) => Ok(emptied(alloc, all)),
        Term::Con(_, front, back) => joined(emptied(alloc, front), emptied(alloc, back)),
        Term::Act(_, front, back) => joined(emptied(alloc, front), emptied(alloc, back)),
        Term::Case(case) => case_components(alloc, case),
        Term::Delete(delete) => delete_components(alloc, delete),
        Term::IoTy(_, a) => Ok(vec![in alloc; a.take()]?),
        Term::Trap(a) => Ok(vec![in alloc; a.take()]?),
        _ => Ok(Vec::new(alloc)),
    }
}

fn pair(alloc: Global, one: &mut Term, other: &mut Term) -> Result<Vec<Term>, MemoryError>
    ensures { IfOk result (λ v. v.items ≡ one.old ∷ other.old ∷ []) }
{
    Ok(vec![in alloc; one.take(), other.take()]?)
}

/// What a list holds, which is empty then.
fn emptied<T>(alloc: Global, items: &mut Vec<T>) -> Vec<T>
    ensures { result ≡ items.old }
{
    mem::replace(items, Vec::new(alloc))
}

fn joined(mut front: Vec<Term>, mut back: Vec<Term>) -> Result<Vec<Term>, MemoryError>
    ensures { IfOk result (λ v. v.items ≡ front.items ++ back.items) }
{
    front.append(&mut back)?;
    Ok(front)
}

#[tactic(auto, using(crate::proofs::Parts::part_lists))]
fn case_components(alloc: Global, source: &mut Case) -> Result<Vec<Term>, MemoryError>
    ensures { IfOk result (λ v. side_by_side (terms v.items) ≡ parts (case source.old)) }
{
    let mut all = emptied(alloc, &mut source.params);
    all.push(source.motive.take())?;
    all.append(&mut bodies(alloc, emptied(alloc, &mut source.branches))?)?;
    all.push(source.scrutinee.take())?;
    Ok(all)
}

fn bodies(alloc: Global, branches: Vec<Branch>) -> Result<Vec<Term>, MemoryError>
    ensures { IfOk result (λ v. terms v.items ≡ map (λ b. b.1) (branches_of branches.items)) }
{
    let mut all = Vec::with_capacity(alloc, branches.len())?;
    for branch in branches {
        all.push(branch.body)?;
    }
    Ok(all)
}

#[tactic(auto, using(crate::proofs::Parts::part_lists))]
fn delete_components(alloc: Global, source: &mut Delete) -> Result<Vec<Term>, MemoryError>
    ensures { IfOk result (λ v. side_by_side (terms v.items) ≡ parts (delete source.old)) }
{
    let ty = source.ty.take();
    let point = source.point.take();
    let motive = source.motive.take();
    let branch = source.branch.take();
    Ok(vec![in alloc; ty, point, motive, branch, source.scrutinee.take()]?)
}
