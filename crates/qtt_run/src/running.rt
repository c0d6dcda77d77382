//! A run under way.

ghost use Rattle.std.specs.Prelude.{◌≡◌, ◌≤◌, ◌<◌, ◌-◌, ℕ, List, Option, IfOk, IsErrOf, []};
ghost use Rattle.std.specs.Option.{ForSome};
ghost use Rattle.qtt_edge.specs.Counts.{Counts};
ghost use Rattle.qtt_prims.specs.Tapes.{Taped};
ghost use Rattle.qtt_term.specs.Term.{Io};
ghost use Rattle.qtt_term.specs.View.{action as action_of};
ghost use Rattle.qtt_code.specs.Value.{Value, Values, ◌▹◌};
ghost use Rattle.qtt_code.specs.Machine.{start as started};
ghost use Rattle.qtt_code.specs.Forward.{AllJumpForward};
ghost use Rattle.qtt_value.specs.View.{value as value_of};
ghost use Rattle.qtt_machine.specs.Runs as machine;
ghost use Rattle.qtt_machine.specs.Events.{cause};
ghost use Rattle.qtt_lower.specs.Whole.{compiled_program};
ghost use Rattle.qtt_run.specs.CodeRun.{Now};
ghost use Rattle.qtt_run.specs.Deed.{AsksEffect, binds, gets, gives, puts, opens, writes, closes};
ghost use Rattle.qtt_run.specs.Handles.{Mirrors};
ghost use Rattle.qtt_run.specs.Underway.{Origin, Came, Computes, IsUnderway, Trapping, StartsAt, RestsAtStart};
ghost use Rattle.qtt_run.specs.Underway.{AfterHalt, AfterTurn, Turned, GivesNext, Ahead, fuel};
ghost use Rattle.qtt_run.specs.Stop.{failure, memory_failure, sink_failure, tape_failure};

use crate::deed::{Deed, Effect, asked};
use crate::handles::Handles;
use crate::lines::{Found, Lines};
use crate::output::put_line;
use crate::program::RunHow;
use crate::stop::Stop;
use bumpalo::Bump;
use qtt_base::MemoryError;
use qtt_edge::{Sink, SinkError, Source, TapeError, Tapes};
use qtt_lower::Compiled;
use qtt_machine::{Halt, Machine, TrapKind};
use qtt_prims::ActKind;
use qtt_value::{Val, place};
use std::alloc::Global;

/// A run under way: the machine, the continuations that wait for results (the newest last), what
/// was read and opened, and how many contractions may still be made.
#[derive(Drop)]
pub(crate) struct Running<'p, 'a> {
    alloc: Global,
    arena: &'a Bump,
    machine: Machine<'p, 'a>,
    waiting: Vec<Val<'a>>,
    lines: Lines,
    handles: Handles,
    left: u64,
}

/// What performing an action comes to.
#[derive(Clone, Copy)]
pub(crate) enum Turn<'a> {
    /// It gives this action.
    Gives(Val<'a>),
    /// The machine computes the next one.
    Computes,
    Halts(RunHow),
}

impl<'p: 'a, 'a> Running<'p, 'a> {
    /// Begins at a block, with so many contractions left.
    pub(crate) fn start(
        alloc: Global,
        compiled: &'p Compiled,
        block: u32,
        bound: u64,
        arena: &'a Bump,
    ) -> Result<Running<'p, 'a>, MemoryError>
        requires jumps { AllJumpForward (compiled_program compiled.now) }
        requires answers { machine.Answers (compiled_program compiled.now) (started block) }
        ensures stands { IfOk result (λ run. StartsAt (compiled_program compiled.now) block run) }
        ensures rests { (content : Option (List ℕ)) (input : List ℕ) →
            IfOk result (λ run. RestsAtStart run content input) }
        ensures mirrors { (told : Option (List Taped)) → ForSome told (λ all. all ≡ []) →
            IfOk result (λ run. Mirrors run.handles told []) }
        ensures left { IfOk result (λ run. run.left ≡ bound) }
    {
        Ok(Running {
            alloc,
            arena,
            machine: Machine::start(alloc, compiled.program(), block, arena)?,
            waiting: Vec::new(alloc),
            lines: Lines::new(alloc)?,
            handles: Handles::new(alloc),
            left: bound,
        })
    }

    pub(crate) fn left(&self) -> u64
        ensures { result ≡ self.now.left }
    {
        self.left
    }

    /// Goes on to the end.
    pub(crate) fn go_on<S: Source, O: Sink, T: Tapes>(
        &mut self,
        input: &mut S,
        out: &mut O,
        tapes: &mut T,
    ) -> Result<RunHow, Stop>
        requires { (o : Origin) × Computes o self.old (S.content input.old) (O.content out.old)
            (T.tapes tapes.old) }
        ensures comes { (o : Origin) →
            Computes o self.old (S.content input.old) (O.content out.old) (T.tapes tapes.old) →
            Came failure o self.new.left (O.content out.new) (T.tapes tapes.new) result }
        ensures source { Counts (S.faults input.old) (S.faults input.new)
            (IsErrOf result Stop.Source) }
        ensures sink { Counts (O.faults out.old) (O.faults out.new) (IsErrOf result Stop.Sink) }
        ensures tape { Counts (T.faults tapes.old) (T.faults tapes.new) (IsErrOf result Stop.Tape) }
    {
        let mut turn = Turn::Computes;
        'turns: loop {
            if let Turn::Halts(how) = turn {
                return Ok(how);
            }
            turn = self.step(turn, input, out, tapes)?;
        }
    }

    /// Performs the action that was given, or first computes the next one.
    fn step<S: Source, O: Sink, T: Tapes>(
        &mut self,
        turn: Turn<'a>,
        input: &mut S,
        out: &mut O,
        tapes: &mut T,
    ) -> Result<Turn<'a>, Stop>
        requires { (o : Origin) × AfterTurn o self.old (S.content input.old) (O.content out.old)
            (T.tapes tapes.old) turn }
        ensures turns { (o : Origin) →
            AfterTurn o self.old (S.content input.old) (O.content out.old)
            (T.tapes tapes.old) turn.entry →
            Turned failure o self.new (S.content input.new) (O.content out.new)
            (T.tapes tapes.new) result }
        ensures less { IfOk result
            (λ next. fuel next self.new.left ≤ fuel turn.entry self.old.left - 1) }
        ensures source { Counts (S.faults input.old) (S.faults input.new)
            (IsErrOf result Stop.Source) }
        ensures sink { Counts (O.faults out.old) (O.faults out.new) (IsErrOf result Stop.Sink) }
        ensures tape { Counts (T.faults tapes.old) (T.faults tapes.new) (IsErrOf result Stop.Tape) }
    {
        match turn {
            Turn::Halts(how) => Ok(Turn::Halts(how)),
            Turn::Gives(given) => self.perform(given, input, out, tapes),
            Turn::Computes => match self.compute()? {
                Halt::Done(given) => self.perform(given, input, out, tapes),
                Halt::Trap(kind) => Ok(Turn::Halts(self.trap(tapes, kind)?)),
                Halt::Spent => Ok(Turn::Halts(RunHow::Bound)),
            },
        }
    }

    /// Advances the machine within what is left.
    fn compute(&mut self) -> Result<Halt<'a>, MemoryError>
        requires { (o : Origin) × (i : Option (List ℕ)) × (u : Option (List ℕ)) ×
            (t : Option (List Taped)) × Computes o self.old i u t }
        ensures halts { (o : Origin) (i u : Option (List ℕ)) (t : Option (List Taped)) →
            Computes o self.old i u t →
            AfterHalt o self.new i u t result }
        ensures less { self.new.left ≤ self.old.left }
    {
        let before = self.machine.used();
        let halt = self.machine.advance(self.left)?;
        self.left -= self.machine.used() - before;
        Ok(halt)
    }

    /// Closes the tapes that are open. These are no contractions.
    fn trap<T: Tapes>(&mut self, tapes: &mut T, kind: TrapKind) -> Result<RunHow, TapeError>
        requires { (o : Origin) ×
            (u : Option (List ℕ)) × Trapping o (cause kind) self.old.left self.old.handles u
            (T.tapes tapes.old) }
        ensures comes { (o : Origin) (u : Option (List ℕ)) →
            Trapping o (cause kind) self.old.left self.old.handles u (T.tapes tapes.old) →
            Came tape_failure o self.new.left u (T.tapes tapes.new) result }
        ensures tape { Counts (T.faults tapes.old) (T.faults tapes.new)
            (IsErrOf result TapeError.Failed) }
    {
        self.handles.close_all(tapes)?;
        Ok(RunHow::Trapped(kind))
    }

    /// Performs an action, where it ends the run or the bound leaves a contraction.
    fn perform<S: Source, O: Sink, T: Tapes>(
        &mut self,
        given: Val<'a>,
        input: &mut S,
        out: &mut O,
        tapes: &mut T,
    ) -> Result<Turn<'a>, Stop>
        requires { (o : Origin) ×
            IsUnderway o (Now.gave (value_of given)) self.old (S.content input.old)
            (O.content out.old) (T.tapes tapes.old) }
        ensures turns { (o : Origin) →
            IsUnderway o (Now.gave (value_of given.entry)) self.old (S.content input.old)
            (O.content out.old) (T.tapes tapes.old) →
            Turned failure o self.new (S.content input.new) (O.content out.new)
            (T.tapes tapes.new) result }
        ensures less { IfOk result (λ turn. fuel turn self.new.left ≤ self.old.left) }
        ensures source { Counts (S.faults input.old) (S.faults input.new)
            (IsErrOf result Stop.Source) }
        ensures sink { Counts (O.faults out.old) (O.faults out.new) (IsErrOf result Stop.Sink) }
        ensures tape { Counts (T.faults tapes.old) (T.faults tapes.new) (IsErrOf result Stop.Tape) }
    {
        match asked(given) {
            Deed::Give(res) => Ok(self.give(res)?),
            Deed::GetLine => self.get_line(input, tapes),
            Deed::Else(_) if self.left == 0 => Ok(Turn::Halts(RunHow::Bound)),
            Deed::Else(effect) => self.do_effect(effect, out, tapes),
        }
    }

    /// Gives a result to the newest continuation. Where none waits, the run has ended.
    fn give(&mut self, res: Val<'a>) -> Result<Turn<'a>, MemoryError>
        requires { (o : Origin) × (m : Io) × (i : Option (List ℕ)) × (u : Option (List ℕ)) ×
            (t : Option (List Taped)) ×
            IsUnderway o (Now.gave (gives m (value_of res))) self.old i u t }
        ensures turns { (o : Origin) (m : Io) (i u : Option (List ℕ)) (t : Option (List Taped)) →
            IsUnderway o (Now.gave (gives m (value_of res.entry))) self.old i u t →
            Turned memory_failure o self.new i u t result }
        ensures less { IfOk result (λ turn. fuel turn self.new.left ≤ self.old.left) }
    {
        let Some(rest) = self.waiting.pop() else {
            return Ok(Turn::Halts(RunHow::Ended));
        };
        if self.left == 0 {
            return Ok(Turn::Halts(RunHow::Bound));
        }
        self.machine.call(rest, res)?;
        self.left -= 1;
        Ok(Turn::Computes)
    }

    /// Reads a line. One that is none is a trap, which is told of also where the bound is
    /// reached.
    fn get_line<S: Source, T: Tapes>(
        &mut self,
        input: &mut S,
        tapes: &mut T,
    ) -> Result<Turn<'a>, Stop>
        requires { (o : Origin) × (u : Option (List ℕ)) ×
            IsUnderway o (Now.gave gets) self.old (S.content input.old) u (T.tapes tapes.old) }
        ensures turns { (o : Origin) (u : Option (List ℕ)) →
            IsUnderway o (Now.gave gets) self.old (S.content input.old) u (T.tapes tapes.old) →
            Turned failure o self.new (S.content input.new) u (T.tapes tapes.new) result }
        ensures less { IfOk result (λ turn. fuel turn self.new.left ≤ self.old.left) }
        ensures source { Counts (S.faults input.old) (S.faults input.new)
            (IsErrOf result Stop.Source) }
        ensures tape { Counts (T.faults tapes.old) (T.faults tapes.new) (IsErrOf result Stop.Tape) }
        ensures no_sink { IsErrOf result Stop.Sink → ⊥ }
    {
        match self.lines.next(input)? {
            Found::Line(text) => {
                let text = self.arena.try_alloc_str(text.as_str())?;
                let fields = place(self.arena, &[Val::Text(text)])?;
                Ok(self.give_line(Val::Con(1, fields))?)
            }
            Found::End => Ok(self.give_line(Val::Con(0, &[]))?),
            Found::Bad => Ok(Turn::Halts(self.trap(tapes, TrapKind::BadInputLine)?)),
        }
    }

    /// Gives a line that was read, where the bound leaves a contraction.
    fn give_line(&mut self, line: Val<'a>) -> Result<Turn<'a>, MemoryError>
        ensures turns { (o : Origin) (i u : Option (List ℕ)) (t : Option (List Taped)) →
            GivesNext o (value_of line.entry) self.old i u t →
            Turned memory_failure o self.new i u t result }
        ensures less { IfOk result (λ turn. fuel turn self.new.left ≤ self.old.left) }
    {
        if self.left == 0 {
            return Ok(Turn::Halts(RunHow::Bound));
        }
        let next = self.pure(ActKind::Pure, line)?;
        Ok(self.spend(next))
    }

    /// Does an effect, which the bound leaves, and gives the action that it gives.
    fn do_effect<O: Sink, T: Tapes>(
        &mut self,
        effect: Effect<'a>,
        out: &mut O,
        tapes: &mut T,
    ) -> Result<Turn<'a>, Stop>
        requires left { 0 < self.old.left }
        requires at { (o : Origin) × (v : Value) × (i : Option (List ℕ)) ×
            AsksEffect v effect × IsUnderway o (Now.gave v) self.old i (O.content out.old)
            (T.tapes tapes.old) }
        ensures turns { (o : Origin) (v : Value) (i : Option (List ℕ)) → AsksEffect v effect.entry →
            IsUnderway o (Now.gave v) self.old i (O.content out.old) (T.tapes tapes.old) →
            Turned failure o self.new i (O.content out.new) (T.tapes tapes.new) result }
        ensures less { IfOk result (λ turn. fuel turn self.new.left ≤ self.old.left) }
        ensures sink { Counts (O.faults out.old) (O.faults out.new) (IsErrOf result Stop.Sink) }
        ensures tape { Counts (T.faults tapes.old) (T.faults tapes.new) (IsErrOf result Stop.Tape) }
        ensures no_source { IsErrOf result Stop.Source → ⊥ }
    {
        match effect {
            Effect::Bind(first, rest) => Ok(self.bind(first, rest)?),
            Effect::PutLine(line) => Ok(self.put_line(out, line)?),
            Effect::Open(name) => Ok(self.open(tapes, name)?),
            Effect::Write(place, line) => Ok(self.write(tapes, place, line)?),
            Effect::Close(place) => Ok(self.close(tapes, place)?),
        }
    }

    /// Gives an action whose result a continuation waits for.
    fn bind(&mut self, first: Val<'a>, rest: Val<'a>) -> Result<Turn<'a>, MemoryError>
        requires left { 0 < self.old.left }
        ensures turns { (o : Origin) (m n : Io) (i u : Option (List ℕ)) (t : Option (List Taped)) →
            IsUnderway o (Now.gave (binds m n (value_of first.entry) (value_of rest.entry)))
            self.old i u t →
            Turned memory_failure o self.new i u t result }
        ensures less { IfOk result (λ turn. fuel turn self.new.left ≤ self.old.left) }
    {
        if self.waiting.push(rest).is_err() {
            return Err(MemoryError);
        }
        Ok(self.spend(first))
    }

    fn put_line<O: Sink>(&mut self, out: &mut O, line: &str) -> Result<Turn<'a>, SinkError>
        requires left { 0 < self.old.left }
        ensures turns { (o : Origin) (i : Option (List ℕ)) (t : Option (List Taped)) →
            IsUnderway o (Now.gave (puts line.now)) self.old i (O.content out.old) t →
            Turned sink_failure o self.new i (O.content out.new) t result }
        ensures less { IfOk result (λ turn. fuel turn self.new.left ≤ self.old.left) }
        ensures sink { Counts (O.faults out.old) (O.faults out.new)
            (IsErrOf result SinkError.Failed) }
    {
        let unit = self.pure(ActKind::Pure, Val::Con(0, &[]))?;
        put_line(self.alloc, out, line)?;
        Ok(self.spend(unit))
    }

    fn open<T: Tapes>(&mut self, tapes: &mut T, name: &str) -> Result<Turn<'a>, TapeError>
        requires left { 0 < self.old.left }
        requires at { (o : Origin) × (i : Option (List ℕ)) × (u : Option (List ℕ)) ×
            IsUnderway o (Now.gave (opens name.now)) self.old i u (T.tapes tapes.old) }
        ensures turns { (o : Origin) (i u : Option (List ℕ)) →
            IsUnderway o (Now.gave (opens name.now)) self.old i u (T.tapes tapes.old) →
            Turned tape_failure o self.new i u (T.tapes tapes.new) result }
        ensures less { IfOk result (λ turn. fuel turn self.new.left ≤ self.old.left) }
        ensures tape { Counts (T.faults tapes.old) (T.faults tapes.new)
            (IsErrOf result TapeError.Failed) }
    {
        let place = self.handles.open(tapes, name)?;
        let handle = self.pure(ActKind::Pure1, Val::Tape(place))?;
        Ok(self.spend(handle))
    }

    fn write<T: Tapes>(
        &mut self,
        tapes: &mut T,
        place: u32,
        line: &str,
    ) -> Result<Turn<'a>, TapeError>
        requires left { 0 < self.old.left }
        requires at { (o : Origin) × (i : Option (List ℕ)) × (u : Option (List ℕ)) ×
            IsUnderway o (Now.gave (writes place line.now)) self.old i u (T.tapes tapes.old) }
        ensures turns { (o : Origin) (i u : Option (List ℕ)) →
            IsUnderway o (Now.gave (writes place line.now)) self.old i u (T.tapes tapes.old) →
            Turned tape_failure o self.new i u (T.tapes tapes.new) result }
        ensures less { IfOk result (λ turn. fuel turn self.new.left ≤ self.old.left) }
        ensures tape { Counts (T.faults tapes.old) (T.faults tapes.new)
            (IsErrOf result TapeError.Failed) }
    {
        let handle = self.pure(ActKind::Pure1, Val::Tape(place))?;
        self.handles.write(tapes, place, line)?;
        Ok(self.spend(handle))
    }

    fn close<T: Tapes>(&mut self, tapes: &mut T, place: u32) -> Result<Turn<'a>, TapeError>
        requires left { 0 < self.old.left }
        requires at { (o : Origin) × (i : Option (List ℕ)) × (u : Option (List ℕ)) ×
            IsUnderway o (Now.gave (closes place)) self.old i u (T.tapes tapes.old) }
        ensures turns { (o : Origin) (i u : Option (List ℕ)) →
            IsUnderway o (Now.gave (closes place)) self.old i u (T.tapes tapes.old) →
            Turned tape_failure o self.new i u (T.tapes tapes.new) result }
        ensures less { IfOk result (λ turn. fuel turn self.new.left ≤ self.old.left) }
        ensures tape { Counts (T.faults tapes.old) (T.faults tapes.new)
            (IsErrOf result TapeError.Failed) }
    {
        let unit = self.pure(ActKind::Pure, Val::Con(0, &[]))?;
        self.handles.close(tapes, place)?;
        Ok(self.spend(unit))
    }

    /// The contraction that gives an action.
    fn spend(&mut self, next: Val<'a>) -> Turn<'a>
        requires { 0 < self.old.left }
        ensures turns { (o : Origin) (i u : Option (List ℕ)) (t : Option (List Taped)) →
            Ahead o (Now.gave (value_of next.entry)) self.old i u t →
            AfterTurn o self.new i u t result }
        ensures less { fuel result self.new.left ≤ self.old.left }
    {
        self.left -= 1;
        Turn::Gives(next)
    }

    /// The action that gives a value.
    fn pure(&self, kind: ActKind, res: Val<'a>) -> Result<Val<'a>, MemoryError>
        ensures { IfOk result (λ given. value_of given ≡ Value.action (action_of kind)
            (value_of res.entry ▹ Values.none)) }
    {
        Ok(Val::Act(kind, place(self.arena, &[res])?))
    }
}
