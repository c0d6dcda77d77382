//! Each form once.

use qtt_base::{GlobalId, ModuleId};
use qtt_closure::convert;
use qtt_erase::{Lean, LeanBranch};
use qtt_prims::{ActKind, Lit, Primitive};
use std::alloc::Global;
use std::test::Fail;

/// The functions of a term, as they are shown.
fn shown(alloc: Global, lean: Lean) -> Result<String, Fail> {
    let flat = convert(alloc, &lean)?;
    Ok(format!(in alloc; "{:?}", flat.functions)?)
}

fn boxed(alloc: Global, lean: Lean) -> Result<Box<Lean>, Fail> {
    Ok(Box::new(alloc, lean)?)
}

/// The inmost function uses the variable of the third function and then that of the first. It
/// captures them the other way round.
#[test]
fn variables_are_captured_outermost_first(rt: HostRuntime) -> Result<(), Fail> {
    let alloc = rt.alloc();
    let uses = Lean::App(boxed(alloc, Lean::Var(0))?, boxed(alloc, Lean::Var(2))?);
    let third = Lean::Fun(boxed(alloc, Lean::Thunk(boxed(alloc, uses)?))?);
    let first = Lean::Fun(boxed(alloc, Lean::Fun(boxed(alloc, third)?))?);
    assert_eq!(rt;
        shown(alloc, first)?.as_str(),
        "[Function { captured: 0, takes: 0, body: Closure(1, []) }, \
         Function { captured: 0, takes: 1, body: Closure(2, [Var(0)]) }, \
         Function { captured: 1, takes: 1, body: Closure(3, [Var(1)]) }, \
         Function { captured: 1, takes: 1, body: Closure(4, [Var(1), Var(0)]) }, \
         Function { captured: 2, takes: 0, body: App(Var(0), Var(1)) }]"
    );
    Ok(())
}

/// The function in the scrutinee has the number before that in the branch.
#[test]
fn other_forms_are_kept(rt: HostRuntime) -> Result<(), Fail> {
    let alloc = rt.alloc();
    let id = GlobalId {
        module: ModuleId(1),
        item: 0,
    };
    let mut branches = Vec::new(alloc);
    let shows = Lean::Prim(Primitive::ShowInt, vec![in alloc; Lean::Lit(Lit::Int(3))]?);
    branches.push(LeanBranch {
        fields: 0,
        body: Lean::Act(ActKind::PutLine, vec![in alloc; shows]?),
    })?;
    let mut fields = Vec::new(alloc);
    fields.push(Lean::Ty)?;
    fields.push(Lean::Tape(5))?;
    fields.push(Lean::Fun(boxed(alloc, Lean::Var(2))?))?;
    branches.push(LeanBranch {
        fields: 2,
        body: Lean::Con(1, fields),
    })?;
    branches.push(LeanBranch {
        fields: 0,
        body: Lean::Trap,
    })?;
    let scrutinee = Lean::App(
        boxed(alloc, Lean::Force(boxed(alloc, Lean::Def(id))?))?,
        boxed(alloc, Lean::Thunk(boxed(alloc, Lean::Ty)?))?,
    );
    assert_eq!(rt;
        shown(alloc, Lean::Case(boxed(alloc, scrutinee)?, branches))?.as_str(),
        "[Function { captured: 0, takes: 0, body: Case(\
         App(Force(Def(GlobalId { module: ModuleId(1), item: 0 })), Closure(1, [])), [\
         FlatBranch { fields: 0, body: Act(PutLine, [Prim(ShowInt, [Lit(Int(3))])]) }, \
         FlatBranch { fields: 2, body: Con(1, [Ty, Tape(5), Closure(2, [Var(1)])]) }, \
         FlatBranch { fields: 0, body: Trap }]) }, \
         Function { captured: 0, takes: 0, body: Ty }, \
         Function { captured: 1, takes: 1, body: Var(1) }]"
    );
    Ok(())
}
