//! The machine.

ghost use Rattle.std.specs.Prelude.{◌≡◌, IfOk};
ghost use Rattle.qtt_code.specs.Forward.{AllJumpForward};
ghost use Rattle.qtt_code.specs.Machine.{called, start as started};
ghost use Rattle.qtt_code.specs.View.{program as program_of};
ghost use Rattle.qtt_value.specs.View.{value as value_of};
ghost use Rattle.qtt_machine.specs.Runs.{Answers};
ghost use Rattle.qtt_machine.specs.Machine.{Advanced, Begins, IsReady, program};

use crate::event::Halt;
use crate::frames::Frames;
use crate::running::run;
use bumpalo::Bump;
use qtt_base::MemoryError;
use qtt_code::{Instr, Program};
use qtt_value::Val;
use std::alloc::Global;

/// An evaluation of a program's code, whose values stand in an arena.
#[derive(Drop)]
pub struct Machine<'p, 'a> {
    program: &'p Program,
    arena: &'a Bump,
    frames: Frames<'a>,
    used: u64,
}

impl<'p: 'a, 'a> Machine<'p, 'a> {
    /// Begins at a block, which the first tick enters.
    pub fn start(
        alloc: Global,
        program: &'p Program,
        block: u32,
        arena: &'a Bump,
    ) -> Result<Machine<'p, 'a>, MemoryError>
        requires jumps { AllJumpForward (program_of program.now) }
        requires answers { Answers (program_of program.now) (started block) }
        ensures { IfOk result (λ machine. Begins (program_of program.now)
            (started block) 0 machine) }
    {
        let code = arena.try_alloc([Instr::TailEnter(block)])?;
        let frames = Frames::alone(alloc, code, &[])?;
        Ok(Machine {
            program,
            arena,
            frames,
            used: 0,
        })
    }

    /// Makes at most so many ticks. Out of memory also where more than 2^64 - 1 were made in
    /// all.
    pub fn advance(&mut self, ticks: u64) -> Result<Halt<'a>, MemoryError>
        requires { IsReady self.old }
        ensures { IfOk result (λ halt. Advanced self.old ticks halt self.new) }
    {
        let (halt, made) = run(&mut self.frames, self.program, self.arena, ticks)?;
        self.used = self.used.checked_add(made).ok_or(MemoryError)?;
        Ok(halt)
    }

    /// How many ticks were made since the start.
    pub fn used(&self) -> u64
        ensures { result ≡ self.now.used }
    {
        self.used
    }

    /// Makes the call of a function at an argument the next evaluation.
    pub fn call(&mut self, function: Val<'a>, argument: Val<'a>) -> Result<(), MemoryError>
        requires jumps { AllJumpForward (program self.old) }
        requires answers { Answers (program self.old)
            (called (value_of function) (value_of argument)) }
        ensures { IfOk result (λ _. Begins (program self.old)
            (called (value_of function.entry) (value_of argument.entry)) self.old.used self.new) }
    {
        let code = self.arena.try_alloc([Instr::TailCall])?;
        self.frames = Frames::alone(self.frames.alloc(), code, &[function, argument])?;
        Ok(())
    }
}
