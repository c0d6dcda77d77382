//! Runs of so many ticks.

ghost use Rattle.std.specs.Prelude.{IfOk};
ghost use Rattle.qtt_code.specs.View.{program as program_of};
ghost use Rattle.qtt_machine.specs.View.{state};
ghost use Rattle.qtt_machine.specs.Halting.{AtTick, AtHalt, MayRun, Ran};

use crate::event::{Event, Halt};
use crate::frames::Frames;
use crate::step::{step, ticks_next};
use bumpalo::Bump;
use qtt_base::MemoryError;
use qtt_code::Program;

/// Goes on to behind the next tick, or to where the run ends or traps before one.
#[inline(always)]
fn to_tick<'a>(
    frames: &mut Frames<'a>,
    program: &'a Program,
    arena: &'a Bump,
) -> Result<Event<'a>, MemoryError>
    requires { MayRun (program_of program.now) frames.old }
    ensures { IfOk result (λ event. AtTick (program_of program.now)
        (state frames.old) event frames.new) }
{
    'instructions: loop {
        match step(frames, program, arena)? {
            Event::Went => {}
            Event::Ticked => return Ok(Event::Ticked),
            Event::Ended(value) => return Ok(Event::Ended(value)),
            Event::Trapped(kind) => return Ok(Event::Trapped(kind)),
        }
    }
}

/// Goes on to before the next tick, or to where the run ends or traps before one.
fn to_halt<'a>(
    frames: &mut Frames<'a>,
    program: &'a Program,
    arena: &'a Bump,
) -> Result<Halt<'a>, MemoryError>
    requires { MayRun (program_of program.now) frames.old }
    ensures { IfOk result (λ halt. AtHalt (program_of program.now)
        (state frames.old) halt frames.new) }
{
    'instructions: loop {
        if ticks_next(frames, program) {
            return Ok(Halt::Spent);
        }
        match step(frames, program, arena)? {
            Event::Went => {}
            Event::Ticked => unreachable!(),
            Event::Ended(value) => return Ok(Halt::Done(value)),
            Event::Trapped(kind) => return Ok(Halt::Trap(kind)),
        }
    }
}

/// Makes at most so many ticks. With the halt, how many were made.
pub(crate) fn run<'a>(
    frames: &mut Frames<'a>,
    program: &'a Program,
    arena: &'a Bump,
    ticks: u64,
) -> Result<(Halt<'a>, u64), MemoryError>
    requires { MayRun (program_of program.now) frames.old }
    ensures { IfOk result (λ r. Ran (program_of program.now)
        (state frames.old) ticks r.0 r.1 frames.new) }
{
    'ticks: for made in 0..ticks {
        match to_tick(frames, program, arena)? {
            Event::Went => unreachable!(),
            Event::Ticked => {}
            Event::Ended(value) => return Ok((Halt::Done(value), made)),
            Event::Trapped(kind) => return Ok((Halt::Trap(kind), made)),
        }
    }
    let halt = to_halt(frames, program, arena)?;
    Ok((halt, ticks))
}
