//! Tapes in memory.

ghost use Rattle.std.specs.Prelude.{◌≡◌, ◌≢◌, ◌↔◌, [], IfOk, IsSome, OnOk, OnErr, IsErrOf};
ghost use Rattle.std.specs.Option.{ForSome};
ghost use Rattle.qtt_prims.specs.Tapes.{new_tape, with_line};
ghost use Rattle.qtt_edge.specs.Counts.{Counts};
ghost use Rattle.qtt_edge.specs.Tapes.{HasRoom, IsNextNumber, IsOpenAt, Opens, AddsLine, Closes, KeepsOthers};
ghost use Rattle.qtt_edge.specs.TapeRack.{taped, told_tapes};

use crate::plan::{FailingCalls, FailurePlan, NeverFails};
use crate::tapes::{TapeError, Tapes};
use qtt_prims::Text;
use std::alloc::{AllocError, Global};

/// A tape: its name, its lines, and whether it is still open.
#[derive(Debug, Drop)]
pub struct Tape {
    pub name: Text,
    pub lines: Vec<Text>,
    pub is_open: bool,
}

/// Tapes by their numbers.
#[derive(Drop)]
pub struct TapeRack<P> {
    pub tapes: Vec<Tape>,
    pub plan: P,
    pub alloc: Global,
}

impl TapeRack<NeverFails> {
    pub fn new(alloc: Global) -> TapeRack<NeverFails>
        ensures { result.tapes.items ≡ [] }
    {
        TapeRack {
            tapes: Vec::new(alloc),
            plan: NeverFails,
            alloc,
        }
    }
}

impl TapeRack<FailingCalls> {
    /// The calls of these numbers fail, counted from 0 over all methods together.
    pub fn failing(alloc: Global, calls: Vec<u64>) -> TapeRack<FailingCalls>
        ensures tapes { result.tapes.items ≡ [] }
        ensures plan { result.plan ≡ record { calls = calls; made = 0; faults = 0 } }
    {
        TapeRack {
            tapes: Vec::new(alloc),
            plan: FailingCalls::new(calls),
            alloc,
        }
    }
}

impl<P: FailurePlan> Tapes for TapeRack<P> {
    ghost tapes = { told_tapes };

    ghost faults = { λ s. P.faults s.plan };

    fn create(&mut self, name: &str) -> Result<u32, TapeError>
        requires { HasRoom (told_tapes self.old) }
        ensures number { IfOk result (IsNextNumber (told_tapes self.old)) }
        ensures ok { OnOk result (Opens (told_tapes self.old) (told_tapes self.new) name.now) }
        ensures err { OnErr result (told_tapes self.new ≡ told_tapes self.old) }
        ensures failed { Counts (P.faults self.old.plan) (P.faults self.new.plan)
            (IsErrOf result TapeError.Failed) }

        // Each call, of whichever method, is one of the plan, and fails exactly where the plan
        // says so.
        ensures advanced { self.new.plan ≡ P.advanced self.old.plan }
        ensures planned { IsErrOf result TapeError.Failed ↔ IsSome (P.upcoming self.old.plan) }
    {
        if self.plan.next().is_some() {
            return Err(TapeError::Failed);
        }
        let number = self.tapes.len() as u32;
        let Ok(tape) = opened(self.alloc, name) else {
            return Err(TapeError::Memory);
        };
        match self.tapes.push(tape) {
            Ok(()) => Ok(number),
            Err(_) => Err(TapeError::Memory),
        }
    }

    fn append(&mut self, number: u32, text: &str) -> Result<(), TapeError>
        requires { ForSome (told_tapes self.old) (IsOpenAt number) }
        ensures ok { OnOk result (AddsLine (told_tapes self.old)
            (told_tapes self.new) number text.now) }
        ensures err { OnErr result
            (KeepsOthers number (told_tapes self.old) (told_tapes self.new)) }
        ensures failed { Counts (P.faults self.old.plan) (P.faults self.new.plan)
            (IsErrOf result TapeError.Failed) }

        // Each call is one of the plan, and fails exactly where the plan says so; an error
        // changes no tape.
        ensures advanced { self.new.plan ≡ P.advanced self.old.plan }
        ensures planned { IsErrOf result TapeError.Failed ↔ IsSome (P.upcoming self.old.plan) }
        ensures kept { OnErr result (told_tapes self.new ≡ told_tapes self.old) }
    {
        if self.plan.next().is_some() {
            return Err(TapeError::Failed);
        }
        let tape = &mut self.tapes[number as usize];
        match tape.write(self.alloc, text) {
            Ok(()) => Ok(()),
            Err(_) => Err(TapeError::Memory),
        }
    }

    fn close(&mut self, number: u32) -> Result<(), TapeError>
        requires { ForSome (told_tapes self.old) (IsOpenAt number) }
        ensures ok { OnOk result (Closes (told_tapes self.old) (told_tapes self.new) number) }
        ensures err { OnErr result
            (KeepsOthers number (told_tapes self.old) (told_tapes self.new)) }
        ensures failed { Counts (P.faults self.old.plan) (P.faults self.new.plan)
            (IsErrOf result TapeError.Failed) }

        // Each call is one of the plan, and fails exactly where the plan says so; an error
        // changes no tape.
        ensures advanced { self.new.plan ≡ P.advanced self.old.plan }
        ensures planned { IsErrOf result TapeError.Failed ↔ IsSome (P.upcoming self.old.plan) }
        ensures kept { OnErr result (told_tapes self.new ≡ told_tapes self.old) }
        ensures memory { result ≢ Err TapeError.Memory }
    {
        if self.plan.next().is_some() {
            return Err(TapeError::Failed);
        }
        self.tapes[number as usize].is_open = false;
        Ok(())
    }
}

impl Tape {
    fn write(&mut self, alloc: Global, text: &str) -> Result<(), AllocError>
        ensures ok { OnOk result (taped self.new ≡ with_line text.now (taped self.old)) }
        ensures err { OnErr result (taped self.new ≡ taped self.old) }
    {
        let line = Text::from_str(alloc, text)?;
        self.lines.push(line)?;
        Ok(())
    }
}

fn opened(alloc: Global, name: &str) -> Result<Tape, AllocError>
    ensures { IfOk result (λ tape. taped tape ≡ new_tape name.now) }
{
    Ok(Tape {
        name: Text::from_str(alloc, name)?,
        lines: Vec::new(alloc),
        is_open: true,
    })
}
