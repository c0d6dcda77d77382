//! The components of a term, with the numbers of binders under which they stand.

ghost use Rattle.std.specs.Prelude.{◌≡◌, ◌++◌, ◌∷◌, [], map, IfOk, OnOk};
ghost use Rattle.qtt_term.specs.View.{term, branches, case as case_of, delete as delete_of};
ghost use Rattle.qtt_envconv.specs.Components.{component_list, plain, seen};

use qtt_base::MemoryError;
use qtt_term::{Branch, Case, Delete, Term};
use std::alloc::Global;

/// A component of a term, under so many binders.
#[derive(Clone, Copy)]
pub struct Component<'a> {
    pub code: &'a Term,
    pub binders: u32,
}

/// The components, in the order of their numbers.
#[tactic(auto, using(crate::proofs::ComponentLists::component_lists))]
pub fn components<'a>(alloc: Global, t: &'a Term) -> Result<Vec<Component<'a>>, MemoryError>
    ensures { IfOk result (λ v. map seen v.items ≡ component_list (term t.now)) }
{
    match t {
        Term::Pi(_, domain, codomain) => binding(alloc, domain, codomain),
        Term::Lam(_, domain, body) => binding(alloc, domain, body),
        Term::App(_, function, argument) => {
            let mut all = one(alloc, function)?;
            push(&mut all, argument, 0)?;
            Ok(all)
        }
        Term::Fam(_, arguments) => unbound(alloc, arguments),
        Term::Prim(_, arguments) => unbound(alloc, arguments),
        Term::Con(_, params, fields) => {
            let mut all = unbound(alloc, params)?;
            push_all(&mut all, fields)?;
            Ok(all)
        }
        Term::Act(_, types, arguments) => {
            let mut all = unbound(alloc, types)?;
            push_all(&mut all, arguments)?;
            Ok(all)
        }
        Term::Case(case) => of_case(alloc, case),
        Term::Delete(delete) => of_delete(alloc, delete),
        Term::IoTy(_, result) => one(alloc, result),
        Term::Trap(ty) => one(alloc, ty),
        _ => Ok(Vec::new(alloc)),
    }
}

fn push<'a>(all: &mut Vec<Component<'a>>, code: &'a Term, binders: u32) -> Result<(), MemoryError>
    ensures { OnOk result (map seen all.new.items ≡ map seen all.old.items ++
        (binders, term code.now) ∷ []) }
{
    Ok(all.push(Component { code, binders })?)
}

fn push_all<'a>(all: &mut Vec<Component<'a>>, terms: &'a [Term]) -> Result<(), MemoryError>
    ensures { OnOk result (map seen all.new.items ≡ map seen all.old.items ++ plain terms.now) }
{
    for code in terms {
        push(all, code, 0)?;
    }
    Ok(())
}

fn one<'a>(alloc: Global, code: &'a Term) -> Result<Vec<Component<'a>>, MemoryError>
    ensures { IfOk result (λ v. map seen v.items ≡ (0, term code.now) ∷ []) }
{
    let mut all = Vec::new(alloc);
    push(&mut all, code, 0)?;
    Ok(all)
}

fn unbound<'a>(alloc: Global, terms: &'a [Term]) -> Result<Vec<Component<'a>>, MemoryError>
    ensures { IfOk result (λ v. map seen v.items ≡ plain terms.now) }
{
    let mut all = Vec::with_capacity(alloc, terms.len())?;
    push_all(&mut all, terms)?;
    Ok(all)
}

/// A component, and one under a binder.
fn binding<'a>(
    alloc: Global,
    domain: &'a Term,
    body: &'a Term,
) -> Result<Vec<Component<'a>>, MemoryError>
    ensures { IfOk result (λ v. map seen v.items ≡ (0, term domain.now) ∷ (1, term body.now) ∷
        []) }
{
    let mut all = one(alloc, domain)?;
    push(&mut all, body, 1)?;
    Ok(all)
}

fn push_branches<'a>(all: &mut Vec<Component<'a>>, sources: &'a [Branch]) -> Result<(), MemoryError>
    ensures { OnOk result (map seen all.new.items ≡ map seen all.old.items ++
        branches sources.now) }
{
    for branch in sources {
        push(all, &branch.body, branch.fields)?;
    }
    Ok(())
}

fn of_case<'a>(alloc: Global, case: &'a Case) -> Result<Vec<Component<'a>>, MemoryError>
    ensures { IfOk result (λ v. map seen v.items ≡ component_list (case_of case.now)) }
{
    let Some(binders) = case.indices.checked_add(1) else {
        return Err(MemoryError);
    };
    let mut all = unbound(alloc, &case.params)?;
    push(&mut all, &case.motive, binders)?;
    push_branches(&mut all, &case.branches)?;
    push(&mut all, &case.scrutinee, 0)?;
    Ok(all)
}

fn of_delete<'a>(alloc: Global, delete: &'a Delete) -> Result<Vec<Component<'a>>, MemoryError>
    ensures { IfOk result (λ v. map seen v.items ≡ component_list (delete_of delete.now)) }
{
    let mut all = one(alloc, &delete.ty)?;
    push(&mut all, &delete.point, 0)?;
    push(&mut all, &delete.motive, 1)?;
    push(&mut all, &delete.branch, 0)?;
    push(&mut all, &delete.scrutinee, 0)?;
    Ok(all)
}
