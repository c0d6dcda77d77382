//! One instruction.

ghost use Rattle.std.specs.Prelude.{◌≡◌, ◌≤◌, IfOk, Some, drop, slice_get, length};
ghost use Rattle.std.specs.Option.{option_map};
ghost use Rattle.qtt_code.specs.Value.{Value, Values, side_by_side};
ghost use Rattle.qtt_code.specs.Machine.{Did, calls, enters, forces, instruction, makes, pushes, returns, switches, taken};
ghost use Rattle.qtt_code.specs.View.{instr as instr_of, program as program_of};
ghost use Rattle.qtt_term.specs.View.{action};
ghost use Rattle.qtt_value.specs.View.{value as value_of, values};
ghost use Rattle.qtt_machine.specs.View.{state, position};
ghost use Rattle.qtt_machine.specs.Stacks.{IsWithin};
ghost use Rattle.qtt_machine.specs.Ticks.{NextTicks, is_tick as tick_of};
ghost use Rattle.qtt_machine.specs.Events.{Does};
ghost use Rattle.qtt_machine.specs.Parts.{as_closure as closure_of, as_con as con_of};

use crate::compute::{compute, makes_tick};
use crate::event::{Event, TrapKind};
use crate::frames::{Entry, Frames};
use bumpalo::Bump;
use qtt_base::MemoryError;
use qtt_code::{Instr, Program};
use qtt_prims::ActKind;
use qtt_value::{Val, place};

/// Does the next instruction.
#[inline(always)]
pub(crate) fn step<'a>(
    frames: &mut Frames<'a>,
    program: &'a Program,
    arena: &'a Bump,
) -> Result<Event<'a>, MemoryError>
    requires { ¬ (instruction (program_of program.now) (state frames.old) ≡ Did.stuck) }
    ensures { IfOk result (λ event. Does
        (instruction (program_of program.now) (state frames.old)) event frames.new) }
{
    match frames.next() {
        Instr::Local(place) => local(frames, *place),
        Instr::Captured(place) => captured(frames, *place),
        Instr::Int(number) => known(frames, Val::Int(*number)),
        Instr::Text(text) => known(frames, Val::Text(text.as_str())),
        Instr::Type => known(frames, Val::Ty),
        Instr::Closure(block, count) => closure(frames, arena, *block, *count),
        Instr::Con(tag, count) => con(frames, arena, *tag, *count),
        Instr::Action(kind, count) => act(frames, arena, *kind, *count),
        Instr::Call => call(frames, program, Entry::Inner),
        Instr::TailCall => call(frames, program, Entry::Tail),
        Instr::Force => force(frames, program, Entry::Inner),
        Instr::TailForce => force(frames, program, Entry::Tail),
        Instr::Enter(block) => enter(frames, program, Entry::Inner, *block, &[], &[]),
        Instr::TailEnter(block) => enter(frames, program, Entry::Tail, *block, &[], &[]),
        Instr::Prim(prim) => compute(frames, arena, *prim),
        Instr::Switch(places) => switch(frames, places),
        Instr::Leave(count) => {
            frames.drop_locals(*count as usize);
            Ok(Event::Went)
        }
        Instr::Jump(place) => {
            frames.jump(*place as usize);
            Ok(Event::Went)
        }
        Instr::Return => give_back(frames),
        Instr::Trap => Ok(Event::Trapped(TrapKind::MissingClause)),
    }
}

/// Whether the next instruction makes a tick.
pub(crate) fn ticks_next(frames: &Frames, program: &Program) -> bool
    requires { ¬ (instruction (program_of program.now) (state frames.now) ≡ Did.stuck) }
    ensures { NextTicks (program_of program.now) (state frames.now) result }
{
    match frames.next() {
        Instr::Prim(prim) => makes_tick(frames, *prim),
        instr => is_tick(instr),
    }
}

fn is_tick(instr: &Instr) -> bool
    ensures { result ≡ tick_of (instr_of instr.now) }
{
    match instr {
        Instr::Call
        | Instr::TailCall
        | Instr::Force
        | Instr::TailForce
        | Instr::Enter(_)
        | Instr::TailEnter(_)
        | Instr::Prim(_)
        | Instr::Switch(_) => true,
        Instr::Local(_)
        | Instr::Captured(_)
        | Instr::Int(_)
        | Instr::Text(_)
        | Instr::Type
        | Instr::Closure(_, _)
        | Instr::Con(_, _)
        | Instr::Action(_, _)
        | Instr::Leave(_)
        | Instr::Jump(_)
        | Instr::Return
        | Instr::Trap => false,
    }
}

#[inline(always)]
fn local<'a>(frames: &mut Frames<'a>, place: u32) -> Result<Event<'a>, MemoryError>
    requires within { IsWithin (state frames.old) }
    requires unstuck { ¬ (pushes (slice_get (state frames.old).frame.locals place)
        (state frames.old) ≡ Did.stuck) }
    ensures { IfOk result (λ event. Does
        (pushes (slice_get (state frames.old).frame.locals place) (state frames.old)) event
        frames.new) }
{
    frames.push(frames.local(place as usize))?;
    Ok(Event::Went)
}

#[inline(always)]
fn captured<'a>(frames: &mut Frames<'a>, place: u32) -> Result<Event<'a>, MemoryError>
    requires within { IsWithin (state frames.old) }
    requires unstuck { ¬ (pushes (slice_get (state frames.old).frame.captured place)
        (state frames.old) ≡ Did.stuck) }
    ensures { IfOk result (λ event. Does
        (pushes (slice_get (state frames.old).frame.captured place) (state frames.old)) event
        frames.new) }
{
    frames.push(frames.captured(place as usize))?;
    Ok(Event::Went)
}

#[inline(always)]
fn known<'a>(frames: &mut Frames<'a>, value: Val<'a>) -> Result<Event<'a>, MemoryError>
    requires { IsWithin (state frames.old) }
    ensures { IfOk result (λ event. Does
        (pushes (Some (value_of value.entry)) (state frames.old)) event frames.new) }
{
    frames.push(value)?;
    Ok(Event::Went)
}

/// The last so many values, placed in the arena.
#[inline(always)]
fn parts<'a>(frames: &Frames<'a>, arena: &'a Bump, count: u32) -> Result<&'a [Val<'a>], MemoryError>
    requires { count ≤ length (state frames.now).frame.pushed }
    ensures { IfOk result (λ placed. taken count Values.none
        (state frames.now).frame.pushed ≡ Some
        (record {
          values = side_by_side (values placed.now);
          left = drop count (state frames.now).frame.pushed;
        })) }
{
    place(arena, frames.top(count as usize))
}

#[inline(always)]
fn closure<'a>(
    frames: &mut Frames<'a>,
    arena: &'a Bump,
    block: u32,
    count: u32,
) -> Result<Event<'a>, MemoryError>
    requires within { IsWithin (state frames.old) }
    requires unstuck { ¬ (makes (Value.closure block)
        (taken count Values.none (state frames.old).frame.pushed) (state frames.old) ≡ Did.stuck) }
    ensures { IfOk result (λ event. Does
        (makes (Value.closure block) (taken count Values.none (state frames.old).frame.pushed)
        (state frames.old)) event frames.new) }
{
    let captured = parts(frames, arena, count)?;
    frames.replace(count as usize, Val::Clo(block, captured))?;
    Ok(Event::Went)
}

#[inline(always)]
fn con<'a>(
    frames: &mut Frames<'a>,
    arena: &'a Bump,
    tag: u32,
    count: u32,
) -> Result<Event<'a>, MemoryError>
    requires within { IsWithin (state frames.old) }
    requires unstuck { ¬ (makes (Value.con tag)
        (taken count Values.none (state frames.old).frame.pushed) (state frames.old) ≡ Did.stuck) }
    ensures { IfOk result (λ event. Does
        (makes (Value.con tag) (taken count Values.none (state frames.old).frame.pushed)
        (state frames.old)) event frames.new) }
{
    let fields = parts(frames, arena, count)?;
    frames.replace(count as usize, Val::Con(tag, fields))?;
    Ok(Event::Went)
}

#[inline(always)]
fn act<'a>(
    frames: &mut Frames<'a>,
    arena: &'a Bump,
    kind: ActKind,
    count: u32,
) -> Result<Event<'a>, MemoryError>
    requires within { IsWithin (state frames.old) }
    requires unstuck { ¬ (makes (Value.action (action kind))
        (taken count Values.none (state frames.old).frame.pushed) (state frames.old) ≡ Did.stuck) }
    ensures { IfOk result (λ event. Does
        (makes (Value.action (action kind))
        (taken count Values.none (state frames.old).frame.pushed) (state frames.old)) event
        frames.new) }
{
    let arguments = parts(frames, arena, count)?;
    frames.replace(count as usize, Val::Act(kind, arguments))?;
    Ok(Event::Went)
}

/// Begins a block with these captured values and locals.
#[inline(always)]
fn enter<'a>(
    frames: &mut Frames<'a>,
    program: &'a Program,
    entry: Entry,
    number: u32,
    captured: &'a [Val<'a>],
    locals: &[Val<'a>],
) -> Result<Event<'a>, MemoryError>
    requires within { IsWithin (state frames.old) }
    requires unstuck { ¬ (enters (position entry) (slice_get (program_of program.now) number)
        (values captured.now) (values locals.now) (state frames.old) ≡ Did.stuck) }
    ensures { IfOk result (λ event. Does
        (enters (position entry) (slice_get (program_of program.now) number)
        (values captured.now) (values locals.now) (state frames.old)) event frames.new) }
{
    let block = &program.blocks[number as usize];
    frames.enter(entry, block, captured)?;
    frames.add_locals(locals)?;
    Ok(Event::Ticked)
}

#[inline(always)]
fn call<'a>(
    frames: &mut Frames<'a>,
    program: &'a Program,
    entry: Entry,
) -> Result<Event<'a>, MemoryError>
    requires within { IsWithin (state frames.old) }
    requires unstuck { ¬ (calls (program_of program.now) (position entry)
        (state frames.old).frame.pushed (state frames.old) ≡ Did.stuck) }
    ensures { IfOk result (λ event. Does
        (calls (program_of program.now) (position entry) (state frames.old).frame.pushed
        (state frames.old)) event frames.new) }
{
    let argument = frames.newest(0);
    let Some((block, captured)) = as_closure(frames.newest(1)) else {
        unreachable!()
    };
    frames.forget(2);
    enter(frames, program, entry, block, captured, &[argument])
}

#[inline(always)]
fn force<'a>(
    frames: &mut Frames<'a>,
    program: &'a Program,
    entry: Entry,
) -> Result<Event<'a>, MemoryError>
    requires within { IsWithin (state frames.old) }
    requires unstuck { ¬ (forces (program_of program.now) (position entry)
        (state frames.old).frame.pushed (state frames.old) ≡ Did.stuck) }
    ensures { IfOk result (λ event. Does
        (forces (program_of program.now) (position entry) (state frames.old).frame.pushed
        (state frames.old)) event frames.new) }
{
    let Some((block, captured)) = as_closure(frames.newest(0)) else {
        unreachable!()
    };
    frames.forget(1);
    enter(frames, program, entry, block, captured, &[])
}

#[inline(always)]
fn switch<'a>(frames: &mut Frames<'a>, places: &[u32]) -> Result<Event<'a>, MemoryError>
    requires { ¬ (switches places.now (state frames.old).frame.pushed
        (state frames.old) ≡ Did.stuck) }
    ensures { IfOk result (λ event. Does
        (switches places.now (state frames.old).frame.pushed (state frames.old)) event
        frames.new) }
{
    let Some((tag, fields)) = as_con(frames.newest(0)) else {
        unreachable!()
    };
    let place = places[tag as usize];
    frames.forget(1);
    frames.add_locals(fields)?;
    frames.jump(place as usize);
    Ok(Event::Ticked)
}

#[inline(always)]
fn give_back<'a>(frames: &mut Frames<'a>) -> Result<Event<'a>, MemoryError>
    requires { ¬ (returns (state frames.old).frame.pushed (state frames.old).waiting ≡ Did.stuck) }
    ensures { IfOk result (λ event. Does
        (returns (state frames.old).frame.pushed (state frames.old).waiting) event frames.new) }
{
    let value = frames.newest(0);
    frames.give_back(value)
}

#[tactic(auto, using(crate::proofs::Parting::parting))]
pub(crate) fn as_closure<'a>(value: Val<'a>) -> Option<(u32, &'a [Val<'a>])>
    ensures { option_map (λ p. (p.0, values p.1.now)) result ≡ closure_of (value_of value.entry) }
{
    match value {
        Val::Clo(block, captured) => Some((block, captured)),
        Val::Int(_) | Val::Text(_) | Val::Con(_, _) | Val::Act(_, _) | Val::Tape(_) | Val::Ty =>
            None,
    }
}

#[tactic(auto, using(crate::proofs::Parting::parting))]
pub(crate) fn as_con<'a>(value: Val<'a>) -> Option<(u32, &'a [Val<'a>])>
    ensures { option_map (λ p. (p.0, values p.1.now)) result ≡ con_of (value_of value.entry) }
{
    match value {
        Val::Con(tag, fields) => Some((tag, fields)),
        Val::Int(_) | Val::Text(_) | Val::Clo(_, _) | Val::Act(_, _) | Val::Tape(_) | Val::Ty =>
            None,
    }
}
