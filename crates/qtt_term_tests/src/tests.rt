//! Each public call once.

use qtt_base::{GlobalId, ModuleId, Name};
use qtt_prims::{ActKind, Primitive};
use qtt_term::signatures::{action_signature, primitive_signature, type_arguments};
use qtt_term::telescopes::{
    branch_type, copied_binders, family_binders, filled_binders, joined, motive_binders, number,
    parameter_binders, result_type, self_type,
};
use qtt_term::{ConId, Constructor, Ctx, Family, Globals, Term};
use qtt_usage::mult::Mult;
use std::test::Fail;

fn takes_shared<T: Sync>(value: &T) -> &T {
    value
}

fn takes_moved<T: Send>(value: T) -> T {
    value
}

fn moved(globals: Globals) -> Globals {
    takes_moved(globals)
}

fn shared(globals: &Globals) -> &Globals {
    takes_shared(globals)
}

#[test]
fn environments_cross_threads(rt: HostRuntime) -> Result<(), Fail> {
    let globals = moved(Globals::prim(rt.alloc())?);
    assert_eq!(rt; shared(&globals).definitions().len(), 0);
    Ok(())
}

#[test]
fn terms_are_moved(rt: HostRuntime) -> Result<(), Fail> {
    let alloc = rt.alloc();
    let function = Term::lam(alloc, Mult::Many, Term::IntTy, Term::Var(1))?;
    let shifted = Term::lam(alloc, Mult::Many, Term::IntTy, Term::Var(3))?;
    let filled = Term::lam(alloc, Mult::Many, Term::IntTy, Term::Sort(4))?;
    let values = vec![in alloc; Term::Sort(4)]?;
    assert!(rt; function.shift(alloc, 0, 2)?.same(&shifted));
    assert!(rt; function.subst(alloc, &values)?.same(&filled));
    assert!(rt; Term::Var(0).fill(alloc, &values)?.same(&Term::Sort(4)));
    assert!(rt; function.copy(alloc)?.same(&function));
    function.literals_in_range();
    assert!(rt; !function.same(&shifted));
    Ok(())
}

#[test]
fn environments_grow(rt: HostRuntime) -> Result<(), Fail> {
    let alloc = rt.alloc();
    let mut globals = Globals::prim(alloc)?;
    let id = GlobalId {
        module: ModuleId(1),
        item: 0,
    };
    globals.add_signature(id, Name::new(alloc, "Main.main")?, Mult::Many, Term::IntTy)?;
    globals.set_body(id, Term::Sort(0))?;
    assert!(rt; globals.definition(id).is_some());
    assert_eq!(rt; globals.definitions().len(), 1);
    let copied = globals.copy(alloc)?;
    assert!(rt; copied.family(id).is_none());
    Ok(())
}

#[test]
fn families_are_given_constructors(rt: HostRuntime) -> Result<(), Fail> {
    let alloc = rt.alloc();
    let mut globals = Globals::prim(alloc)?;
    let id = GlobalId {
        module: ModuleId(1),
        item: 0,
    };
    let zero = GlobalId {
        module: ModuleId(1),
        item: 1,
    };
    let family = Family {
        id,
        name: Name::new(alloc, "Main.Nat")?,
        params: Vec::new(alloc),
        indices: Vec::new(alloc),
        level: 0,
        constructors: Vec::new(alloc),
    };
    let constructor = Constructor {
        id: zero,
        name: Name::new(alloc, "Main.Z")?,
        fields: Vec::new(alloc),
        labels: Vec::new(alloc),
        result: Vec::new(alloc),
    };
    let constructors = vec![in alloc; constructor]?;
    assert!(rt; !globals.can_give(id, &constructors));
    assert!(rt; globals.can_add(&family));
    if globals.can_add(&family) {
        globals.add_family(alloc, family)?;
    }
    assert!(rt; globals.can_give(id, &constructors));
    if globals.can_give(id, &constructors) {
        globals.set_constructors(alloc, id, constructors)?;
    }
    assert!(rt; globals.constructor(zero).is_some());
    Ok(())
}

#[test]
fn constructors_are_found(rt: HostRuntime) -> Result<(), Fail> {
    let alloc = rt.alloc();
    let mut globals = Globals::prim(alloc)?;
    let truth = GlobalId {
        module: ModuleId(0),
        item: 10,
    };
    match globals.constructor(truth) {
        Some((family, place)) => {
            assert_eq!(rt; family.id.item, 4);
            assert_eq!(rt; place, 1);
        }
        None => return Err(Fail::from("no constructor")),
    }
    let nothing = globals.part(alloc, ModuleId(1))?;
    globals.adopt(alloc, &nothing)?;
    Ok(())
}

#[test]
fn conditions_have_their_tests(rt: HostRuntime) -> Result<(), Fail> {
    let alloc = rt.alloc();
    let globals = Globals::prim(alloc)?;
    let id = GlobalId {
        module: ModuleId(1),
        item: 0,
    };
    let function = Term::lam(alloc, Mult::Many, Term::IntTy, Term::Var(0))?;
    let context = Ctx {
        vars: vec![in alloc; (Mult::Many, Term::IntTy)]?,
        names: Vec::new(alloc),
    };
    assert!(rt; globals.is_absent(id));
    assert!(rt; !globals.is_open(id));
    assert!(rt; function.is_closed());
    assert!(rt; !Term::Var(0).is_closed());
    assert!(rt; function.is_in_shape(&globals));
    assert!(rt; context.is_in_shape(&globals));
    assert!(rt; globals.is_in_shape());
    assert!(rt; !globals.part(alloc, ModuleId(1))?.is_in_shape());
    Ok(())
}

#[test]
fn signatures_are_made(rt: HostRuntime) -> Result<(), Fail> {
    let alloc = rt.alloc();
    let shows = primitive_signature(alloc, Primitive::ShowInt)?;
    assert_eq!(rt; shows.arguments.len(), 1);
    assert!(rt; shows.ty.same(&Term::StringTy));
    let binds = action_signature(alloc, ActKind::BindIoIo1)?;
    assert_eq!(rt; binds.arguments.len(), 4);
    assert_eq!(rt; type_arguments(ActKind::BindIoIo1), 2);
    assert_eq!(rt; type_arguments(ActKind::Close), 0);
    Ok(())
}

#[test]
fn telescopes_of_families_are_made(rt: HostRuntime) -> Result<(), Fail> {
    let alloc = rt.alloc();
    let globals = Globals::prim(alloc)?;
    let id = GlobalId {
        module: ModuleId(0),
        item: 13,
    };
    let family = match globals.family(id) {
        Some(family) => family,
        None => return Err(Fail::from("no family of equalities")),
    };
    let reflexivity = &family.constructors[0];
    let params = vec![in alloc; Term::IntTy, Term::Sort(7)]?;
    let parameters = parameter_binders(alloc, family)?;
    assert_eq!(rt; parameters.len(), 2);
    assert_eq!(rt; family_binders(alloc, family)?.len(), 3);
    assert_eq!(rt; motive_binders(alloc, id, family, &params)?.len(), 2);
    assert_eq!(rt; copied_binders(alloc, &parameters)?.len(), 2);
    let filled = filled_binders(alloc, Mult::One, &parameters, &[])?;
    assert!(rt; filled[1].1.same(&Term::Var(0)));
    let own = vec![in alloc; Term::Var(2), Term::Var(1), Term::Var(0)]?;
    assert!(rt; self_type(alloc, id, family)?.same(&Term::Fam(id, own)));
    let result = vec![in alloc; Term::Var(1), Term::Var(0), Term::Var(0)]?;
    assert!(rt; result_type(alloc, id, 2, reflexivity)?.same(&Term::Fam(id, result)));
    let con = ConId {
        family: id,
        place: 0,
    };
    let branch = branch_type(alloc, con, 2, reflexivity, &params, &Term::Var(1))?;
    assert!(rt; branch.same(&Term::Sort(7)));
    assert_eq!(rt; joined(params, Vec::new(alloc))?.len(), 2);
    assert_eq!(rt; number(5)?, 5);
    Ok(())
}
