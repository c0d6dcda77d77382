//! Primitives.

ghost use Rattle.std.specs.Prelude.{◌≡◌, [], ◌++◌, ◌≤◌, IfOk, drop, length};
ghost use Rattle.std.specs.Option.{option_map};
ghost use Rattle.qtt_prims.specs.declared.prim.Primitive.TheVariants as primitive;
ghost use Rattle.qtt_code.specs.Value.{Values};
ghost use Rattle.qtt_code.specs.Machine.{Did, answers, arity, computes, taken, truth as truth_of};
ghost use Rattle.qtt_value.specs.View.{value as value_of};
ghost use Rattle.qtt_machine.specs.View.{state};
ghost use Rattle.qtt_machine.specs.Stacks.{IsWithin};
ghost use Rattle.qtt_machine.specs.Events.{Does};
ghost use Rattle.qtt_machine.specs.Ticks.{IsDivision, TicksOr};
ghost use Rattle.qtt_machine.specs.Parts.{IsOnNumbers, as_number as number_of, as_text as text_of};

use crate::event::{Event, TrapKind};
use crate::frames::Frames;
use bumpalo::Bump;
use bumpalo::collections::into_bump_str;
use qtt_base::MemoryError;
use qtt_prims::{Lit, PrimAnswer, Primitive, apply};
use qtt_value::Val;

/// Applies a primitive to the newest values.
#[inline(always)]
pub(crate) fn compute<'a>(
    frames: &mut Frames<'a>,
    arena: &'a Bump,
    prim: Primitive,
) -> Result<Event<'a>, MemoryError>
    requires within { IsWithin (state frames.old) }
    requires unstuck { ¬ (computes prim
        (taken (arity prim) Values.none (state frames.old).frame.pushed)
        (state frames.old) ≡ Did.stuck) }
    ensures { IfOk result (λ event. Does
        (computes prim (taken (arity prim) Values.none (state frames.old).frame.pushed)
        (state frames.old)) event frames.new) }
{
    match prim {
        Primitive::AddInt
        | Primitive::SubInt
        | Primitive::MulInt
        | Primitive::DivInt
        | Primitive::ModInt
        | Primitive::EqInt
        | Primitive::LtInt => with_numbers(frames, arena, prim),
        Primitive::AppendString => append(frames, arena),
        Primitive::EqString => same_texts(frames),
        Primitive::ShowInt => show(frames, arena),
    }
}

/// Applies a primitive on two numbers.
#[inline(always)]
fn with_numbers<'a>(
    frames: &mut Frames<'a>,
    arena: &'a Bump,
    prim: Primitive,
) -> Result<Event<'a>, MemoryError>
    requires within { IsWithin (state frames.old) }
    requires numbers { IsOnNumbers prim }
    requires unstuck { ¬ (computes prim
        (taken (arity prim) Values.none (state frames.old).frame.pushed)
        (state frames.old) ≡ Did.stuck) }
    ensures { IfOk result (λ event. Does
        (computes prim (taken (arity prim) Values.none (state frames.old).frame.pushed)
        (state frames.old)) event frames.new) }
{
    let Some(first) = as_number(frames.newest(1)) else {
        unreachable!()
    };
    let Some(second) = as_number(frames.newest(0)) else {
        unreachable!()
    };
    match apply(frames.alloc(), prim, &[Lit::Int(first), Lit::Int(second)]) {
        Ok(answer) => give(frames, arena, 2, answer),
        Err(_) => Err(MemoryError),
    }
}

fn show<'a>(frames: &mut Frames<'a>, arena: &'a Bump) -> Result<Event<'a>, MemoryError>
    requires within { IsWithin (state frames.old) }
    requires unstuck { ¬ (computes primitive.ShowInt
        (taken 1 Values.none (state frames.old).frame.pushed) (state frames.old) ≡ Did.stuck) }
    ensures { IfOk result (λ event. Does
        (computes primitive.ShowInt (taken 1 Values.none (state frames.old).frame.pushed)
        (state frames.old)) event frames.new) }
{
    let Some(number) = as_number(frames.newest(0)) else {
        unreachable!()
    };
    match apply(frames.alloc(), Primitive::ShowInt, &[Lit::Int(number)]) {
        Ok(answer) => give(frames, arena, 1, answer),
        Err(_) => Err(MemoryError),
    }
}

fn append<'a>(frames: &mut Frames<'a>, arena: &'a Bump) -> Result<Event<'a>, MemoryError>
    requires within { IsWithin (state frames.old) }
    requires unstuck { ¬ (computes primitive.AppendString
        (taken 2 Values.none (state frames.old).frame.pushed) (state frames.old) ≡ Did.stuck) }
    ensures { IfOk result (λ event. Does
        (computes primitive.AppendString (taken 2 Values.none (state frames.old).frame.pushed)
        (state frames.old)) event frames.new) }
{
    let Some(first) = as_text(frames.newest(1)) else {
        unreachable!()
    };
    let Some(second) = as_text(frames.newest(0)) else {
        unreachable!()
    };
    let joined = join(arena, first, second)?;
    frames.replace(2, Val::Text(joined))?;
    Ok(Event::Ticked)
}

fn same_texts<'a>(frames: &mut Frames<'a>) -> Result<Event<'a>, MemoryError>
    requires within { IsWithin (state frames.old) }
    requires unstuck { ¬ (computes primitive.EqString
        (taken 2 Values.none (state frames.old).frame.pushed) (state frames.old) ≡ Did.stuck) }
    ensures { IfOk result (λ event. Does
        (computes primitive.EqString (taken 2 Values.none (state frames.old).frame.pushed)
        (state frames.old)) event frames.new) }
{
    let Some(first) = as_text(frames.newest(1)) else {
        unreachable!()
    };
    let Some(second) = as_text(frames.newest(0)) else {
        unreachable!()
    };
    frames.replace(2, truth(first == second))?;
    Ok(Event::Ticked)
}

/// Whether a primitive makes a tick: each does but a division by 0.
pub(crate) fn makes_tick(frames: &Frames, prim: Primitive) -> bool
    requires { ¬ (computes prim (taken (arity prim) Values.none (state frames.now).frame.pushed)
        (state frames.now) ≡ Did.stuck) }
    ensures { TicksOr (computes prim
        (taken (arity prim) Values.none (state frames.now).frame.pushed) (state frames.now))
        result }
{
    match prim {
        Primitive::DivInt | Primitive::ModInt => divides(frames, prim),
        _ => true,
    }
}

/// Whether the divisor is not 0.
fn divides(frames: &Frames, prim: Primitive) -> bool
    requires division { IsDivision prim }
    requires unstuck { ¬ (computes prim
        (taken (arity prim) Values.none (state frames.now).frame.pushed)
        (state frames.now) ≡ Did.stuck) }
    ensures { TicksOr (computes prim
        (taken (arity prim) Values.none (state frames.now).frame.pushed) (state frames.now))
        result }
{
    let Some(_dividend) = as_number(frames.newest(1)) else {
        unreachable!()
    };
    let Some(divisor) = as_number(frames.newest(0)) else {
        unreachable!()
    };
    if divisor == 0 {
        return false;
    }
    true
}

/// Puts an answer in the place of the last so many values, or traps.
#[inline(always)]
fn give<'a>(
    frames: &mut Frames<'a>,
    arena: &'a Bump,
    count: usize,
    answer: PrimAnswer,
) -> Result<Event<'a>, MemoryError>
    requires within { IsWithin (state frames.old) }
    requires pushed { count ≤ length (state frames.old).frame.pushed }
    requires unstuck { ¬ (answers answer (drop count (state frames.old).frame.pushed)
        (state frames.old) ≡ Did.stuck) }
    ensures { IfOk result (λ event. Does
        (answers answer (drop count (state frames.old).frame.pushed) (state frames.old)) event
        frames.new) }
{
    match answer {
        PrimAnswer::Value(Lit::Int(number)) => {
            frames.replace(count, Val::Int(number))?;
            Ok(Event::Ticked)
        }
        PrimAnswer::Value(Lit::Text(text)) => {
            let text = arena.try_alloc_str(text.as_str())?;
            frames.replace(count, Val::Text(text))?;
            Ok(Event::Ticked)
        }
        PrimAnswer::Truth(holds) => {
            frames.replace(count, truth(holds))?;
            Ok(Event::Ticked)
        }
        PrimAnswer::DivisionByZero => Ok(Event::Trapped(TrapKind::DivisionByZero)),
        PrimAnswer::IllTyped => unreachable!(),
    }
}

fn truth<'a>(holds: bool) -> Val<'a>
    ensures { value_of result ≡ truth_of holds }
{
    let parts = no_parts();
    if holds {
        Val::Con(1, parts)
    } else {
        Val::Con(0, parts)
    }
}

fn no_parts<'a>() -> &'a [Val<'a>]
    ensures { result.now ≡ [] }
{
    &[]
}

fn join<'a>(arena: &'a Bump, first: &str, second: &str) -> Result<&'a str, MemoryError>
    ensures { IfOk result (λ joined. joined.now ≡ first.now ++ second.now) }
{
    let mut joined = String::with_capacity(arena, first.len() + second.len())?;
    joined.push_str(first)?;
    joined.push_str(second)?;
    Ok(into_bump_str(joined))
}

fn as_number(value: Val) -> Option<i64>
    ensures { result ≡ number_of (value_of value.entry) }
{
    match value {
        Val::Int(number) => Some(number),
        Val::Text(_) | Val::Con(_, _) | Val::Clo(_, _) | Val::Act(_, _) | Val::Tape(_) | Val::Ty =>
            None,
    }
}

fn as_text<'a>(value: Val<'a>) -> Option<&'a str>
    ensures { option_map (λ t. t.now) result ≡ text_of (value_of value.entry) }
{
    match value {
        Val::Text(text) => Some(text),
        Val::Int(_) | Val::Con(_, _) | Val::Clo(_, _) | Val::Act(_, _) | Val::Tape(_) | Val::Ty =>
            None,
    }
}
