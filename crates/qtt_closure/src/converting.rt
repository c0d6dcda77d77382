//! Closure conversion.

ghost use Rattle.std.specs.Prelude.{◌≡◌, ◌+◌, ◌++◌, IfOk, OnOk, suc, vec_len};
ghost use Rattle.qtt_erase.specs.Binding.{∅};
ghost use Rattle.qtt_erase.specs.Erasure.{place_at};
ghost use Rattle.qtt_erase.specs.View.{lean as lean_term, leans, lean_branches};
ghost use Rattle.qtt_closure.specs.Conversion.{after, captured, captures, closure_at, conversion, flat, functions as functions_in};
ghost use Rattle.qtt_closure.specs.Converted.{own_functions, all_flat, all_functions, all_after, branches_flat, branches_functions, branches_after};
ghost use Rattle.qtt_closure.specs.Scopes.{slots};
ghost use Rattle.qtt_closure.specs.View.{flat_term, flat_terms, flat_branches, function_list, functions_of};

use crate::captures::{captured_values, captured_variables};
use crate::flat::{Flat, FlatBranch, FlatTerm, Function};
use crate::scope::Scope;
use qtt_base::MemoryError;
use qtt_erase::{Lean, LeanBranch};
use std::alloc::Global;

/// The functions of a term in which no variable is free, numbered from 0 on.
pub fn convert(alloc: Global, lean: &Lean) -> Result<Flat, MemoryError>
    ensures { IfOk result (λ f. functions_of f ≡ conversion 0 (lean_term lean.now)) }
{
    convert_from(alloc, 0, lean)
}

/// The functions of a term in which no variable is free, numbered from that number on. Want of
/// memory counts a number of 2^32 too.
pub fn convert_from(alloc: Global, first: u32, lean: &Lean) -> Result<Flat, MemoryError>
    ensures { IfOk result (λ f. functions_of f ≡ conversion first (lean_term lean.now)) }
{
    let mut functions = Vec::new(alloc);
    let _own = closure(alloc, first, &mut functions, &Scope::Captures(&[]), 0, lean)?;
    Ok(Flat { functions })
}

/// The flat term of a part of a function. The functions in it are put behind the others.
/// The first of all has that number.
#[cycle(converted)]
#[tactic(auto, using(crate::proofs::Components::conversions))]
fn converted(
    alloc: Global,
    first: u32,
    functions: &mut Vec<Function>,
    scope: &Scope<'_>,
    source: &Lean,
) -> Result<FlatTerm, MemoryError>
    ensures term { IfOk result
        (λ u. flat_term u ≡ flat (first + vec_len functions.old) (slots scope.now)
        (lean_term source.now)) }
    ensures functions { OnOk result
        (function_list functions.new.items ≡ function_list functions.old.items ++ functions_in
        (first + vec_len functions.old) (slots scope.now) (lean_term source.now)) }
    ensures count { OnOk result
        (first + vec_len functions.new ≡ after (first + vec_len functions.old)
        (lean_term source.now)) }
{
    match source {
        Lean::Var(index) => Ok(FlatTerm::Var(scope.place(*index as usize) as u32)),
        Lean::Fun(body) => closure(alloc, first, functions, scope, 1, body),
        Lean::Thunk(body) => closure(alloc, first, functions, scope, 0, body),
        Lean::App(f, a) => {
            let f = Box::new(alloc, converted(alloc, first, functions, scope, f)?)?;
            let a = Box::new(alloc, converted(alloc, first, functions, scope, a)?)?;
            Ok(FlatTerm::App(f, a))
        }
        Lean::Force(f) => {
            let f = Box::new(alloc, converted(alloc, first, functions, scope, f)?)?;
            Ok(FlatTerm::Force(f))
        }
        Lean::Def(id) => Ok(FlatTerm::Def(*id)),
        Lean::Con(tag, fields) => {
            let fields = converted_all(alloc, first, functions, scope, fields)?;
            Ok(FlatTerm::Con(*tag, fields))
        }
        Lean::Case(scrutinee, branches) => {
            let scrutinee = Box::new(alloc, converted(alloc, first, functions, scope, scrutinee)?)?;
            let branches = converted_branches(alloc, first, functions, scope, branches)?;
            Ok(FlatTerm::Case(scrutinee, branches))
        }
        Lean::Lit(lit) => Ok(FlatTerm::Lit(lit.copy()?)),
        Lean::Prim(prim, args) => {
            let args = converted_all(alloc, first, functions, scope, args)?;
            Ok(FlatTerm::Prim(*prim, args))
        }
        Lean::Act(kind, args) => {
            let args = converted_all(alloc, first, functions, scope, args)?;
            Ok(FlatTerm::Act(*kind, args))
        }
        Lean::Trap => Ok(FlatTerm::Trap),
        Lean::Ty => Ok(FlatTerm::Ty),
        Lean::Tape(number) => Ok(FlatTerm::Tape(*number)),
    }
}

/// The closure of a function, which is put behind the others before the functions in it.
#[cycle(converted)]
#[tactic(auto, using(crate::proofs::Components::conversions))]
fn closure(
    alloc: Global,
    first: u32,
    functions: &mut Vec<Function>,
    scope: &Scope<'_>,
    takes: u32,
    body: &Lean,
) -> Result<FlatTerm, MemoryError>
    ensures term { IfOk result
        (λ u. flat_term u ≡ closure_at (first + vec_len functions.old)
        (captured (captures takes (lean_term body.now) (slots scope.now))
        (place_at (slots scope.now)) ∅)) }
    ensures functions { OnOk result
        (function_list functions.new.items ≡ function_list functions.old.items ++ own_functions
        (first + vec_len functions.old) takes
        (captures takes (lean_term body.now) (slots scope.now)) (lean_term body.now)) }
    ensures count { OnOk result
        (first + vec_len functions.new ≡ after (suc (first + vec_len functions.old))
        (lean_term body.now)) }
{
    let place = functions.len();
    let before = u32::try_from(place).map_err(|_| MemoryError)?;
    let number = first.checked_add(before).ok_or(MemoryError)?;
    let captures = captured_variables(alloc, scope, takes, body)?;
    let values = captured_values(alloc, scope, &captures)?;
    let captured = u32::try_from(values.len()).map_err(|_| MemoryError)?;
    functions.push(Function {
        captured,
        takes,
        body: FlatTerm::Ty,
    })?;
    let own = Scope::Captures(&captures);
    let inner = Scope::Bound(&own, takes);
    let body = converted(alloc, first, functions, &inner, body)?;
    functions[place] = Function {
        captured,
        takes,
        body,
    };
    Ok(FlatTerm::Closure(number, values))
}

#[cycle(converted)]
#[tactic(auto, using(crate::proofs::Components::conversions))]
fn converted_all(
    alloc: Global,
    first: u32,
    functions: &mut Vec<Function>,
    scope: &Scope<'_>,
    sources: &[Lean],
) -> Result<Vec<FlatTerm>, MemoryError>
    ensures terms { IfOk result
        (λ v. flat_terms v.items ≡ all_flat (first + vec_len functions.old) (slots scope.now)
        (leans sources.now)) }
    ensures functions { OnOk result
        (function_list functions.new.items ≡ function_list functions.old.items ++ all_functions
        (first + vec_len functions.old) (slots scope.now) (leans sources.now)) }
    ensures count { OnOk result
        (first + vec_len functions.new ≡ all_after (first + vec_len functions.old)
        (leans sources.now)) }
{
    let mut terms = Vec::with_capacity(alloc, sources.len())?;
    for source in sources {
        terms.push(converted(alloc, first, functions, scope, source)?)?;
    }
    Ok(terms)
}

#[cycle(converted)]
#[tactic(auto, using(crate::proofs::Components::conversions))]
fn converted_branches(
    alloc: Global,
    first: u32,
    functions: &mut Vec<Function>,
    scope: &Scope<'_>,
    sources: &[LeanBranch],
) -> Result<Vec<FlatBranch>, MemoryError>
    ensures terms { IfOk result
        (λ v. flat_branches v.items ≡ branches_flat (first + vec_len functions.old)
        (slots scope.now) (lean_branches sources.now)) }
    ensures functions { OnOk result
        (function_list functions.new.items ≡ function_list functions.old.items ++
        branches_functions (first + vec_len functions.old) (slots scope.now)
        (lean_branches sources.now)) }
    ensures count { OnOk result
        (first + vec_len functions.new ≡ branches_after (first + vec_len functions.old)
        (lean_branches sources.now)) }
{
    let mut branches = Vec::with_capacity(alloc, sources.len())?;
    for source in sources {
        let inner = Scope::Bound(&*scope, source.fields);
        branches.push(FlatBranch {
            fields: source.fields,
            body: converted(alloc, first, functions, &inner, &source.body)?,
        })?;
    }
    Ok(branches)
}
