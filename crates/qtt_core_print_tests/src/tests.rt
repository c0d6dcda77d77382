//! Terms of every form, printed with ample memory, and the lines of a small program.

use qtt_base::{GlobalId, ModuleId, Name};
use qtt_core_print::{print_core, print_definition};
use qtt_prims::{ActKind, Lit, Primitive};
use qtt_term::{Branch, Case, ConId, Definition, Globals, IoKind, Term};
use qtt_usage::mult::Mult;
use std::alloc::Global;
use std::test::Fail;

const fn of_main(item: u32) -> GlobalId {
    GlobalId {
        module: ModuleId(1),
        item,
    }
}

fn is_printed(alloc: Global, depth: u32, t: &Term, text: &str) -> Result<bool, Fail> {
    let names = Globals::prim(alloc)?;
    Ok(print_core(alloc, &names, depth, t)?.as_slice() == text.as_bytes())
}

fn identity(alloc: Global) -> Result<Term, Fail> {
    Ok(Term::lam(alloc, Mult::One, Term::IntTy, Term::Var(0))?)
}

/// Of definitions that the names don't have.
#[test]
fn lines_of_definitions_are_printed(rt: HostRuntime) -> Result<(), Fail> {
    let alloc = rt.alloc();
    let names = Globals::prim(alloc)?;
    let identity = Definition {
        id: of_main(0),
        name: Name::new(alloc, "Main.id")?,
        mult: Mult::Many,
        ty: Term::pi(alloc, Mult::One, Term::IntTy, Term::IntTy)?,
        body: Some(identity(alloc)?),
    };
    let line = print_definition(alloc, &names, &identity)?;
    let wanted = "_ : ((1 x0 : Int) -> Int) = (\\(1 x0 : Int) => x0)";
    assert!(rt; line.as_slice() == wanted.as_bytes());
    let absent = Definition {
        id: of_main(1),
        name: Name::new(alloc, "Main.p")?,
        mult: Mult::Zero,
        ty: Term::IntTy,
        body: None,
    };
    assert!(rt; print_definition(alloc, &names, &absent)?.as_slice() == "0 _ : Int".as_bytes());
    Ok(())
}

#[test]
fn applications_are_printed(rt: HostRuntime) -> Result<(), Fail> {
    let alloc = rt.alloc();
    let inner = Term::app(alloc, Mult::Many, Term::Var(2), Term::Var(1))?;
    let linear = Term::app(alloc, Mult::One, inner, Term::Var(0))?;
    let erased = Term::app(alloc, Mult::Zero, linear, Term::Sort(1))?;
    assert!(rt; is_printed(alloc, 3, &erased, "(((x0 x1) @1 x2) @0 Type 1)")?);
    let three = vec![in alloc; Term::Lit(Lit::Int(3))]?;
    let shown = Term::Prim(Primitive::ShowInt, three);
    assert!(rt; is_printed(alloc, 0, &shown, "(showInt 3)")?);
    let types = vec![in alloc; Term::StringTy]?;
    let arguments = vec![in alloc; Term::Var(0)]?;
    let pure = Term::Act(ActKind::Pure, types, arguments);
    assert!(rt; is_printed(alloc, 0, &pure, "(pure {String} x_)")?);
    let input = Term::Act(ActKind::GetLine, Vec::new(alloc), Vec::new(alloc));
    assert!(rt; is_printed(alloc, 0, &input, "getLine")?);
    Ok(())
}

#[test]
fn types_and_traps_are_printed(rt: HostRuntime) -> Result<(), Fail> {
    let alloc = rt.alloc();
    let io = Term::IoTy(IoKind::Io1, Box::new(alloc, Term::HandleTy)?);
    assert!(rt; is_printed(alloc, 0, &io, "(IO1 Handle)")?);
    let trap = Term::Trap(Box::new(alloc, Term::StringTy)?);
    assert!(rt; is_printed(alloc, 0, &trap, "(trap String)")?);
    let unknown = Term::Fam(of_main(0), Vec::new(alloc));
    assert!(rt; is_printed(alloc, 0, &unknown, "_")?);
    assert!(rt; is_printed(alloc, 0, &Term::Def(of_main(0)), "_")?);
    assert!(rt; is_printed(alloc, 0, &Term::Tape(2), "(tape 2)")?);
    Ok(())
}

/// A match over a family that the names don't have, with a branch of one field.
#[test]
fn matches_are_printed(rt: HostRuntime) -> Result<(), Fail> {
    let alloc = rt.alloc();
    let branch = Branch {
        fields: 1,
        body: Term::Var(0),
    };
    let case = Case {
        mult: Mult::One,
        family: of_main(0),
        params: Vec::new(alloc),
        indices: 0,
        motive: Term::IntTy,
        branches: vec![in alloc; branch]?,
        scrutinee: Term::Var(0),
    };
    let t = Term::Case(Box::new(alloc, case)?);
    assert!(rt; is_printed(alloc, 1, &t, "(case 1 x0 motive x1 => Int { _ x1 => x1 })")?);
    let con = ConId {
        family: of_main(0),
        place: 0,
    };
    let params = vec![in alloc; Term::IntTy]?;
    let fields = vec![in alloc; Term::Var(0)]?;
    let made = Term::Con(con, params, fields);
    assert!(rt; is_printed(alloc, 1, &made, "(_ {Int} x0)")?);
    Ok(())
}
