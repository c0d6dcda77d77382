//! Frames over two stacks that they share.

ghost use Rattle.std.specs.Prelude.{◌≡◌, ◌-◌, ◌<◌, ◌≤◌, [], ◌∷◌, ◌++◌, Some, IfOk, OnOk, length, drop, reverse, take, slice_get};
ghost use Rattle.qtt_code.specs.Value.{Values, side_by_side};
ghost use Rattle.qtt_code.specs.Machine.{alone as alone_with, begin, in_frame, left_with, moved, onward, pushing, returns_to, suspended, taken, with_locals};
ghost use Rattle.qtt_code.specs.View.{block as block_of, instr as instr_of, instrs};
ghost use Rattle.qtt_value.specs.View.{value as value_of, values};
ghost use Rattle.qtt_machine.specs.Stacks.{InOrder, InOrder-prop, IsWithin};

use crate::event::Event;
use qtt_base::MemoryError;
use qtt_code::{Block, Instr};
use qtt_value::Val;
use std::alloc::Global;

/// Whether a frame waits for the value of a call, or gives it back as its own.
#[derive(Clone, Copy)]
pub enum Entry {
    Inner,
    Tail,
}

/// A block that runs, and where its values begin.
#[derive(Clone, Copy)]
pub struct Frame<'a> {
    code: &'a [Instr],
    /// The place of the next instruction.
    place: usize,
    captured: &'a [Val<'a>],
    /// Where its locals begin.
    locals: usize,
    /// Where the values that it pushed begin.
    pushed: usize,
}

/// The frame that runs, those that wait for its value, the oldest first, and the values of all.
#[derive(Drop)]
pub struct Frames<'a> {
    running: Frame<'a>,
    waiting: Vec<Frame<'a>>,
    locals: Vec<Val<'a>>,
    pushed: Vec<Val<'a>>,
    /// The values of each frame begin no later than those of the one that it waits for.
    ghost stacked: { InOrder (running ∷ reverse waiting.items) (length locals.items)
        (length pushed.items) } by { InOrder-prop (running ∷ reverse waiting.items)
            (length locals.items) (length pushed.items) },
}

impl<'a> Frames<'a> {
    ghost use Rattle.qtt_machine.specs.View.{state, position};
    ghost use Rattle.qtt_machine.specs.Events.{Does};

    pub(crate) fn alloc(&self) -> Global {
        *self.pushed.allocator()
    }

    /// One frame, and what it pushed, the oldest first.
    pub(crate) fn alone(
        alloc: Global,
        code: &'a [Instr],
        pushed: &[Val<'a>],
    ) -> Result<Frames<'a>, MemoryError>
        ensures { IfOk result (λ frames. state frames ≡
            (alone_with (instrs code.now) (reverse (values pushed.now)))) }
    {
        Ok(Frames {
            running: Frame {
                code,
                place: 0,
                captured: &[],
                locals: 0,
                pushed: 0,
            },
            waiting: Vec::new(alloc),
            locals: Vec::new(alloc),
            pushed: Vec::from_slice(alloc, pushed)?,
        })
    }

    /// The next instruction.
    pub(crate) fn next(&self) -> &'a Instr
        requires { IsWithin (state self.now) }
        ensures { slice_get (state self.now).frame.code (state self.now).frame.place ≡ Some
            (instr_of result.now) }
    {
        &self.running.code[self.running.place]
    }

    pub(crate) fn local(&self, place: usize) -> Val<'a>
        requires { place < length (state self.now).frame.locals }
        ensures { slice_get (state self.now).frame.locals place ≡ Some (value_of result) }
    {
        self.locals[self.running.locals + place]
    }

    pub(crate) fn captured(&self, place: usize) -> Val<'a>
        requires { place < length (state self.now).frame.captured }
        ensures { slice_get (state self.now).frame.captured place ≡ Some (value_of result) }
    {
        self.running.captured[place]
    }

    /// Pushes a value and goes on.
    pub(crate) fn push(&mut self, value: Val<'a>) -> Result<(), MemoryError>
        requires { IsWithin (state self.old) }
        ensures { OnOk result (state self.new ≡
            (in_frame (pushing (value_of value.entry) (state self.old).frame.pushed
            (state self.old).frame) (state self.old))) }
    {
        prove!(self.running.place < self.running.code.len());
        self.pushed.push(value)?;
        self.running.place += 1;
        Ok(())
    }

    /// The last so many values, the oldest first.
    pub(crate) fn top(&self, count: usize) -> &[Val<'a>]
        requires { count ≤ length (state self.now).frame.pushed }
        ensures { taken count Values.none (state self.now).frame.pushed ≡ Some
            (record {
              values = side_by_side (values result.now);
              left = drop count (state self.now).frame.pushed;
            }) }
    {
        &self.pushed[self.pushed.len() - count..]
    }

    /// Drops the last so many values, pushes one and goes on.
    pub(crate) fn replace(&mut self, count: usize, value: Val<'a>) -> Result<(), MemoryError>
        requires within { IsWithin (state self.old) }
        requires pushed { count ≤ length (state self.old).frame.pushed }
        ensures { OnOk result (state self.new ≡
            (in_frame (pushing (value_of value.entry) (drop count (state self.old).frame.pushed)
            (state self.old).frame) (state self.old))) }
    {
        self.forget(count);
        self.push(value)
    }

    /// Drops the last so many values.
    pub(crate) fn forget(&mut self, count: usize)
        requires { count ≤ length (state self.old).frame.pushed }
        ensures { state self.new ≡
            (in_frame (left_with (drop count (state self.old).frame.pushed)
            (state self.old).frame) (state self.old)) }
    {
        self.pushed.truncate(self.pushed.len() - count);
    }

    /// The value with so many newer ones.
    pub(crate) fn newest(&self, newer: usize) -> Val<'a>
        requires { newer < length (state self.now).frame.pushed }
        ensures { slice_get (state self.now).frame.pushed newer ≡ Some (value_of result) }
    {
        self.pushed[self.pushed.len() - 1 - newer]
    }

    /// Begins a block.
    pub(crate) fn enter(
        &mut self,
        entry: Entry,
        block: &'a Block,
        captured: &'a [Val<'a>],
    ) -> Result<(), MemoryError>
        requires { IsWithin (state self.old) }
        ensures { OnOk result (state self.new ≡
            (record {
              frame = begin (block_of block.now) (values captured.now) [];
              waiting = suspended (position entry) (state self.old).frame
                  (state self.old).waiting;
            })) }
    {
        match entry {
            Entry::Inner => self.suspend(block, captured),
            Entry::Tail => {
                self.leave_for(block, captured);
                Ok(())
            }
        }
    }

    fn suspend(&mut self, block: &'a Block, captured: &'a [Val<'a>]) -> Result<(), MemoryError>
        requires { IsWithin (state self.old) }
        ensures { OnOk result (state self.new ≡
            (record {
              frame = begin (block_of block.now) (values captured.now) [];
              waiting = onward (state self.old).frame ∷ (state self.old).waiting;
            })) }
    {
        prove!(self.running.place < self.running.code.len());
        self.running.place += 1;
        self.waiting.push(self.running)?;
        self.running = Frame {
            code: block.code.as_slice(),
            place: 0,
            captured,
            locals: self.locals.len(),
            pushed: self.pushed.len(),
        };
        Ok(())
    }

    fn leave_for(&mut self, block: &'a Block, captured: &'a [Val<'a>])
        ensures { state self.new ≡
            (record {
              frame = begin (block_of block.now) (values captured.now) [];
              waiting = (state self.old).waiting;
            }) }
    {
        self.locals.truncate(self.running.locals);
        self.pushed.truncate(self.running.pushed);
        self.running.code = block.code.as_slice();
        self.running.place = 0;
        self.running.captured = captured;
    }

    /// Adds locals.
    pub(crate) fn add_locals(&mut self, added: &[Val<'a>]) -> Result<(), MemoryError>
        ensures { OnOk result (state self.new ≡
            (in_frame (with_locals ((state self.old).frame.locals ++ values added.now)
            (state self.old).frame) (state self.old))) }
    {
        self.locals.extend_from_slice(added)?;
        Ok(())
    }

    /// Drops the last so many locals, or all where there are fewer, and goes on.
    pub(crate) fn drop_locals(&mut self, count: usize)
        requires { IsWithin (state self.old) }
        ensures { state self.new ≡
            (in_frame (onward (with_locals
            (take (length (state self.old).frame.locals - count) (state self.old).frame.locals)
            (state self.old).frame)) (state self.old)) }
    {
        prove!(self.running.place < self.running.code.len());
        let own = self.locals.len() - self.running.locals;
        self.locals
            .truncate(self.running.locals + own.saturating_sub(count));
        self.running.place += 1;
    }

    pub(crate) fn jump(&mut self, place: usize)
        ensures { state self.new ≡
            (in_frame (moved place (state self.old).frame) (state self.old)) }
    {
        self.running.place = place;
    }

    /// Gives a value back to the newest frame that waits, or to the caller where none does.
    pub(crate) fn give_back(&mut self, value: Val<'a>) -> Result<Event<'a>, MemoryError>
        ensures { IfOk result (λ event. Does
            (returns_to (value_of value.entry) (state self.old).waiting) event self.new) }
    {
        match self.waiting.pop() {
            None => Ok(Event::Ended(value)),
            Some(frame) => {
                self.locals.truncate(self.running.locals);
                self.pushed.truncate(self.running.pushed);
                self.running = frame;
                self.pushed.push(value)?;
                Ok(Event::Went)
            }
        }
    }
}
