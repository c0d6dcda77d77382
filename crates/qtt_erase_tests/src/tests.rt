//! Each form once, and each public call.

use qtt_base::{GlobalId, ModuleId};
use qtt_erase::erase;
use qtt_erase::multiplicities::{act_mults, field_mults, places, prim_mults};
use qtt_erase::scope::{Scope, Slot, argument_slot, field_slot};
use qtt_prims::{ActKind, Lit, Primitive};
use qtt_term::globals::Globals;
use qtt_term::{Branch, Case, ConId, Delete, Term};
use qtt_usage::mult::Mult;
use std::alloc::Global;
use std::test::Fail;

/// The item of that number of the module Prim.
fn prim_item(item: u32) -> GlobalId {
    GlobalId {
        module: ModuleId(0),
        item,
    }
}

/// What is left of a term, as it is shown.
fn shown(alloc: Global, term: Term) -> Result<String, Fail> {
    let globals = Globals::prim(alloc)?;
    let left = erase(alloc, &globals, &term)?;
    Ok(format!(in alloc; "{left:?}")?)
}

#[test]
fn functions_are_erased(rt: HostRuntime) -> Result<(), Fail> {
    let alloc = rt.alloc();
    let many = Term::lam(alloc, Mult::Many, Term::IntTy, Term::Var(0))?;
    let zero = Term::lam(alloc, Mult::Zero, Term::Sort(0), many)?;
    assert_eq!(rt; shown(alloc, zero)?.as_str(), "Thunk(Fun(Var(0)))");
    let gone = Term::lam(alloc, Mult::Zero, Term::Sort(0), Term::Var(0))?;
    let forced = Term::app(alloc, Mult::Zero, gone, Term::Tape(2))?;
    let called = Term::app(alloc, Mult::One, forced, Term::Tape(3))?;
    assert_eq!(rt;
        shown(alloc, called)?.as_str(),
        "App(Force(Thunk(Ty)), Tape(3))"
    );
    let text = shown(alloc, Term::Def(prim_item(7)))?;
    assert_eq!(rt;
        text.as_str(),
        "Def(GlobalId { module: ModuleId(0), item: 7 })"
    );
    Ok(())
}

/// Of a line of the input its text, or a missing clause at the end.
fn text_of(alloc: Global, line: Term) -> Result<Term, Fail> {
    let mut branches = Vec::new(alloc);
    branches.push(Branch {
        fields: 0,
        body: Term::Trap(Box::new(alloc, Term::StringTy)?),
    })?;
    branches.push(Branch {
        fields: 1,
        body: Term::Var(0),
    })?;
    let case = Case {
        mult: Mult::Many,
        family: prim_item(5),
        params: Vec::new(alloc),
        indices: 0,
        motive: Term::StringTy,
        branches,
        scrutinee: line,
    };
    Ok(Term::Case(Box::new(alloc, case)?))
}

#[test]
fn matches_are_erased(rt: HostRuntime) -> Result<(), Fail> {
    let alloc = rt.alloc();
    let got = ConId {
        family: prim_item(5),
        place: 1,
    };
    let line = Term::Con(
        got,
        Vec::new(alloc),
        vec![in alloc; Term::Lit(Lit::Int(4))]?,
    );
    assert_eq!(rt;
        shown(alloc, text_of(alloc, line)?)?.as_str(),
        "Case(Con(1, [Lit(Int(4))]), [LeanBranch { fields: 0, body: Trap }, LeanBranch { fields: 1, body: Var(0) }])"
    );
    let delete = Delete {
        mult: Mult::Many,
        ty: Term::IntTy,
        point: Term::Tape(0),
        motive: Term::IntTy,
        branch: Term::Tape(1),
        scrutinee: Term::Tape(2),
    };
    assert_eq!(rt;
        shown(alloc, Term::Delete(Box::new(alloc, delete)?))?.as_str(),
        "Case(Tape(2), [LeanBranch { fields: 0, body: Tape(1) }])"
    );
    Ok(())
}

#[test]
fn actions_are_erased(rt: HostRuntime) -> Result<(), Fail> {
    let alloc = rt.alloc();
    let shows = Term::Prim(Primitive::ShowInt, vec![in alloc; Term::Lit(Lit::Int(3))]?);
    let puts = Term::Act(ActKind::PutLine, Vec::new(alloc), vec![in alloc; shows]?);
    let text = shown(alloc, puts)?;
    assert_eq!(rt;
        text.as_str(),
        "Act(PutLine, [Prim(ShowInt, [Lit(Int(3))])])"
    );
    let pure = Term::Act(
        ActKind::Pure,
        vec![in alloc; Term::IntTy]?,
        vec![in alloc; Term::Tape(0)]?,
    );
    assert_eq!(rt; shown(alloc, pure)?.as_str(), "Act(Pure, [Tape(0)])");
    Ok(())
}

#[test]
fn multiplicities_are_found(rt: HostRuntime) -> Result<(), Fail> {
    let alloc = rt.alloc();
    let globals = Globals::prim(alloc)?;
    assert_eq!(rt;
        field_mults(alloc, &globals, prim_item(5), 1)?.as_slice(),
        [Mult::Many].as_slice()
    );
    assert_eq!(rt; prim_mults(alloc, Primitive::ShowInt)?.len(), 1);
    assert_eq!(rt; act_mults(alloc, ActKind::Write)?.len(), 2);
    let scope = Scope::Bound(&Scope::Empty, argument_slot(Mult::Zero));
    let scope = Scope::Bound(&scope, field_slot(Mult::Many, Mult::One));
    assert_eq!(rt; scope.slot(0), Slot::Filled);
    assert_eq!(rt; scope.place(1), 1);
    assert_eq!(rt; places(Mult::Many, &[Mult::Zero, Mult::One], 2), 1);
    Ok(())
}
