//! Which variables a function captures.

ghost use Rattle.std.specs.Prelude.{◌≡◌, IfOk, OnOk};
ghost use Rattle.qtt_erase.specs.Binding.{Tree, ∅};
ghost use Rattle.qtt_erase.specs.Erasure.{place_at};
ghost use Rattle.qtt_erase.specs.View.{lean, leans, lean_branches, side_by_side};
ghost use Rattle.qtt_closure.specs.Conversion.{captured, captures};
ghost use Rattle.qtt_closure.specs.Marks.{marked, all_marked, branches_marked};
ghost use Rattle.qtt_closure.specs.Scopes.{slot_list, slots};
ghost use Rattle.qtt_closure.specs.View.{flat_terms};

use crate::flat::FlatTerm;
use crate::scope::Scope;
use qtt_base::MemoryError;
use qtt_erase::{Lean, LeanBranch};
use std::alloc::Global;

/// Of the variables in scope, the newest first, whether a function that takes so many arguments
/// mentions each in its body.
pub fn captured_variables(
    alloc: Global,
    scope: &Scope<'_>,
    takes: u32,
    body: &Lean,
) -> Result<Vec<bool>, MemoryError>
    ensures { IfOk result (λ v. slot_list v.items ≡ captures takes (lean body.now)
        (slots scope.now)) }
{
    let mut marks = vec![in alloc; false; scope.count()?]?;
    mark(body, takes as usize, &mut marks)?;
    Ok(marks)
}

/// The captured variables as they stand in the scope, the outermost first.
pub fn captured_values(
    alloc: Global,
    scope: &Scope<'_>,
    captures: &[bool],
) -> Result<Vec<FlatTerm>, MemoryError>
    ensures { IfOk result (λ v. side_by_side (flat_terms v.items) ≡ captured
        (slot_list captures.now) (place_at (slots scope.now)) ∅) }
{
    let mut values = Vec::new(alloc);
    for index in (0..captures.len()).rev() {
        if captures[index] {
            let place = u32::try_from(scope.place(index)).map_err(|_| MemoryError)?;
            values.push(FlatTerm::Var(place))?;
        }
    }
    Ok(values)
}

/// Marks the variables that a term mentions. The first mark is that of the variable of this
/// number.
#[cycle(mark)]
#[tactic(auto, using(crate::proofs::Marking::markings))]
fn mark(source: &Lean, first: usize, marks: &mut [bool]) -> Result<(), MemoryError>
    ensures { OnOk result (marks.new ≡ marked first (lean source.now) marks.old) }
{
    match source {
        Lean::Var(index) => {
            mark_variable(*index as usize, first, marks);
            Ok(())
        }
        Lean::Fun(body) => mark(body, first.checked_add(1).ok_or(MemoryError)?, marks),
        Lean::Thunk(body) => mark(body, first, marks),
        Lean::App(f, a) => {
            mark(f, first, marks)?;
            mark(a, first, marks)
        }
        Lean::Force(f) => mark(f, first, marks),
        Lean::Case(scrutinee, branches) => {
            mark_branches(branches, first, marks)?;
            mark(scrutinee, first, marks)
        }
        Lean::Con(_, args) => mark_all(args, first, marks),
        Lean::Prim(_, args) => mark_all(args, first, marks),
        Lean::Act(_, args) => mark_all(args, first, marks),
        Lean::Def(_) | Lean::Lit(_) | Lean::Trap | Lean::Ty | Lean::Tape(_) => Ok(()),
    }
}

fn mark_variable(index: usize, first: usize, marks: &mut [bool])
    ensures { marks.new ≡ marked first (Tree.var index) marks.old }
{
    if index >= first && index - first < marks.len() {
        marks[index - first] = true;
    }
}

#[cycle(mark)]
#[tactic(auto, using(crate::proofs::Marking::markings))]
fn mark_all(sources: &[Lean], first: usize, marks: &mut [bool]) -> Result<(), MemoryError>
    ensures { OnOk result (marks.new ≡ all_marked first (leans sources.now) marks.old) }
{
    for source in sources {
        mark(source, first, marks)?;
    }
    Ok(())
}

#[cycle(mark)]
#[tactic(auto, using(crate::proofs::Marking::markings))]
fn mark_branches(
    branches: &[LeanBranch],
    first: usize,
    marks: &mut [bool],
) -> Result<(), MemoryError>
    ensures { OnOk result (marks.new ≡ branches_marked first
        (lean_branches branches.now) marks.old) }
{
    for branch in branches {
        let inner = first
            .checked_add(branch.fields as usize)
            .ok_or(MemoryError)?;
        mark(&branch.body, inner, marks)?;
    }
    Ok(())
}
