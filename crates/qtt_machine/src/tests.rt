//! That small programs run to their values, so many ticks at a time.

ghost use Rattle.std.specs.Prelude.{◌≡◌, IfOk, OnOk};
ghost use Rattle.qtt_code.specs.Rows.{branching, dividing};
ghost use Rattle.qtt_code.specs.View.{program as program_of};
ghost use Rattle.qtt_machine.specs.Examples.{closing};
ghost use Rattle.qtt_machine.specs.Machine.{IsReady};

use crate::{Halt, Machine, TrapKind};
use bumpalo::Bump;
use qtt_base::{GlobalId, ModuleId};
use qtt_code::{Block, Instr, Program};
use qtt_prims::Primitive;
use qtt_value::Val;
use std::alloc::{AllocError, Global};
use std::test::Fail;

const MAIN: GlobalId = GlobalId {
    module: ModuleId(1),
    item: 0,
};

fn block(captured: u32, takes: u32, code: Vec<Instr>) -> Block
    ensures { result ≡ record { owner = MAIN; captured = captured; takes = takes; code = code } }
{
    Block {
        owner: MAIN,
        captured,
        takes,
        code,
    }
}

/// A Case on a constructor with a field, whose value is added to 1.
fn branching_program(alloc: Global) -> Result<Program, AllocError>
    ensures { IfOk result (λ program. program_of program ≡ branching) }
{
    let code = vec![in alloc;
        Instr::Int(1),
        Instr::Int(5),
        Instr::Con(0, 1),
        Instr::Switch(vec![in alloc; 4, 7]?),
        Instr::Local(0),
        Instr::Leave(1),
        Instr::Jump(8),
        Instr::Int(0),
        Instr::Prim(Primitive::AddInt),
        Instr::Return,
    ]?;
    let blocks = vec![in alloc; block(0, 0, code)]?;
    Ok(Program { blocks })
}

/// A division by 0.
fn dividing_program(alloc: Global) -> Result<Program, AllocError>
    ensures { IfOk result (λ program. program_of program ≡ dividing) }
{
    let code = vec![in alloc;
        Instr::Int(1),
        Instr::Int(0),
        Instr::Prim(Primitive::DivInt),
        Instr::Return,
    ]?;
    let blocks = vec![in alloc; block(0, 0, code)]?;
    Ok(Program { blocks })
}

/// A closure that captured 7, and its block.
fn closing_program(alloc: Global) -> Result<Program, AllocError>
    ensures { IfOk result (λ program. program_of program ≡ closing) }
{
    let closure = vec![in alloc; Instr::Int(7), Instr::Closure(1, 1), Instr::Return]?;
    let difference = vec![in alloc;
        Instr::Captured(0),
        Instr::Local(0),
        Instr::Prim(Primitive::SubInt),
        Instr::Return,
    ]?;
    let blocks = vec![in alloc; block(0, 0, closure), block(1, 1, difference)]?;
    Ok(Program { blocks })
}

fn number(halt: Halt) -> Option<i64> {
    match halt {
        Halt::Done(Val::Int(number)) => Some(number),
        _ => None,
    }
}

/// Makes all of so many ticks, after which the evaluation goes on.
fn spend<'p: 'a, 'a>(machine: &mut Machine<'p, 'a>, ticks: u64) -> Result<(), Fail>
    requires { IsReady machine.old }
    ensures { OnOk result (IsReady machine.new) }
{
    match machine.advance(ticks)? {
        Halt::Spent => Ok(()),
        Halt::Done(_) | Halt::Trap(_) => Err(Fail::from("the evaluation is over")),
    }
}

#[test]
fn ticks_are_made_up_to_the_bound(rt: HostRuntime) -> Result<(), Fail> {
    let alloc = rt.alloc();
    let program = branching_program(alloc)?;
    let arena = Bump::new(alloc);
    let mut machine = Machine::start(alloc, &program, 0, &arena)?;
    spend(&mut machine, 0)?;
    let none = machine.used();
    spend(&mut machine, 2)?;
    let two = machine.used();
    let halt = machine.advance(2)?;
    assert_eq!(rt; (none, two, machine.used()), (0, 2, 3));
    assert_eq!(rt; number(halt), Some(6));
    Ok(())
}

#[test]
fn divisions_by_zero_trap(rt: HostRuntime) -> Result<(), Fail> {
    let alloc = rt.alloc();
    let program = dividing_program(alloc)?;
    let arena = Bump::new(alloc);
    let mut machine = Machine::start(alloc, &program, 0, &arena)?;
    let halt = machine.advance(5)?;
    assert_eq!(rt; machine.used(), 1);
    match halt {
        Halt::Trap(kind) => assert_eq!(rt; kind, TrapKind::DivisionByZero),
        Halt::Done(_) | Halt::Spent => assert!(rt; false, "a division by 0 traps"),
    }
    Ok(())
}

#[test]
fn functions_given_back_are_called(rt: HostRuntime) -> Result<(), Fail> {
    let alloc = rt.alloc();
    let program = closing_program(alloc)?;
    let arena = Bump::new(alloc);
    let mut machine = Machine::start(alloc, &program, 0, &arena)?;
    let Halt::Done(function) = machine.advance(5)? else {
        return Err(Fail::from("no value was given back"));
    };
    machine.call(function, Val::Int(3))?;
    assert_eq!(rt; number(machine.advance(2)?), Some(4));
    assert_eq!(rt; machine.used(), 3);
    Ok(())
}
