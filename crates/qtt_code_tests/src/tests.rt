//! Listings byte for byte.

use qtt_base::{GlobalId, ModuleId, Name};
use qtt_code::{Block, Instr, Program, listing};
use qtt_prims::{ActKind, Primitive, Text};
use qtt_term::{Globals, Term};
use qtt_usage::mult::Mult;
use std::alloc::Global;
use std::test::Fail;

const ID: GlobalId = GlobalId {
    module: ModuleId(1),
    item: 0,
};

const MAIN: GlobalId = GlobalId {
    module: ModuleId(1),
    item: 1,
};

fn block(owner: GlobalId, captured: u32, takes: u32, code: Vec<Instr>) -> Block {
    Block {
        owner,
        captured,
        takes,
        code,
    }
}

fn lines(alloc: Global, lines: &[&str]) -> Result<String, Fail> {
    let mut text = String::new(alloc);
    for line in lines {
        text.push_str(line)?;
        text.push('\n')?;
    }
    Ok(text)
}

#[test]
fn identity_is_listed(rt: HostRuntime) -> Result<(), Fail> {
    let alloc = rt.alloc();
    let mut names = Globals::prim(alloc)?;
    names.add_signature(ID, Name::new(alloc, "Main.id")?, Mult::Many, Term::IntTy)?;
    names.add_signature(
        MAIN,
        Name::new(alloc, "Main.main")?,
        Mult::Many,
        Term::IntTy,
    )?;
    let closed = vec![in alloc; Instr::Closure(1, 0), Instr::Return]?;
    let same = vec![in alloc; Instr::Local(0), Instr::Return]?;
    let main = vec![in alloc;
        Instr::Enter(0),
        Instr::Int(3),
        Instr::Call,
        Instr::Prim(Primitive::ShowInt),
        Instr::Action(ActKind::PutLine, 1),
        Instr::Return,
    ]?;
    let blocks = vec![in alloc;
        block(ID, 0, 0, closed),
        block(ID, 0, 1, same),
        block(MAIN, 0, 0, main),
    ]?;
    let text = listing(alloc, &Program { blocks }, &names)?;
    let expected = [
        "block 0 Main.id captured 0 takes 0",
        "  closure 1 0",
        "  return",
        "block 1 Main.id captured 0 takes 1",
        "  local 0",
        "  return",
        "block 2 Main.main captured 0 takes 0",
        "  enter 0",
        "  int 3",
        "  call",
        "  prim showInt",
        "  action putLine 1",
        "  return",
    ];
    assert_eq!(rt; text.as_slice(), lines(alloc, &expected)?.as_bytes());
    Ok(())
}

#[test]
fn branches_are_listed(rt: HostRuntime) -> Result<(), Fail> {
    let alloc = rt.alloc();
    let names = Globals::prim(alloc)?;
    let code = vec![in alloc;
        Instr::Captured(0),
        Instr::Switch(vec![in alloc; 2, 4]?),
        Instr::Closure(9, 0),
        Instr::Jump(8),
        Instr::Local(1),
        Instr::Local(2),
        Instr::Closure(10, 2),
        Instr::Leave(2),
        Instr::Local(0),
        Instr::TailCall,
    ]?;
    let blocks = vec![in alloc; block(ID, 1, 1, code)]?;
    let text = listing(alloc, &Program { blocks }, &names)?;
    let expected = [
        "block 0 _ captured 1 takes 1",
        "  captured 0",
        "  switch 2 4",
        "  closure 9 0",
        "  jump 8",
        "  local 1",
        "  local 2",
        "  closure 10 2",
        "  leave 2",
        "  local 0",
        "  tail-call",
    ];
    assert_eq!(rt; text.as_slice(), lines(alloc, &expected)?.as_bytes());
    Ok(())
}

#[test]
fn other_instructions_are_listed(rt: HostRuntime) -> Result<(), Fail> {
    let alloc = rt.alloc();
    let names = Globals::prim(alloc)?;
    let code = vec![in alloc;
        Instr::Text(Text::from_str(alloc, "a \"b\"\\\n\t")?),
        Instr::Int(-9_223_372_036_854_775_808),
        Instr::Type,
        Instr::Force,
        Instr::TailForce,
        Instr::TailEnter(7),
        Instr::Con(1, 2),
        Instr::Action(ActKind::BindIo1Io1, 2),
        Instr::Switch(Vec::new(alloc)),
        Instr::Trap,
    ]?;
    let blocks = vec![in alloc; block(MAIN, 0, 0, code)]?;
    let text = listing(alloc, &Program { blocks }, &names)?;
    let expected = [
        "block 0 _ captured 0 takes 0",
        "  text \"a \\\"b\\\"\\\\\\n\\t\"",
        "  int -9223372036854775808",
        "  type",
        "  force",
        "  tail-force",
        "  tail-enter 7",
        "  con 1 2",
        "  action bind1-1 2",
        "  switch",
        "  trap",
    ];
    assert_eq!(rt; text.as_slice(), lines(alloc, &expected)?.as_bytes());
    Ok(())
}
