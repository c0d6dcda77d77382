//! The tapes that a run opened.

ghost use Rattle.std.specs.Prelude.{List, [], ◌∷◌, ◌++◌, ◌≡◌, ◌<◌, ◌-◌, ◌^◌, length, Option, option_map, IfOk, OnOk, OnErr, IsErrOf};
ghost use Rattle.std.specs.Option.{ForSome};
ghost use Rattle.qtt_prims.specs.Tapes.{Taped, new_tape, with_line, shut, changed};
ghost use Rattle.qtt_edge.specs.Counts.{Counts};
ghost use Rattle.qtt_edge.specs.Tapes.{HasRoom, Opens, AddsLine, Closes, KeepsOthers};
ghost use Rattle.qtt_term.specs.FullRun.{all_shut};
ghost use Rattle.qtt_run.specs.Handles.{Mirrors, HasOpen, ClosesFront};

use qtt_edge::{TapeError, Tapes};
use std::alloc::Global;

/// A tape that was opened: the number that the tapes of the outside have for it, and whether it
/// is open still.
#[derive(Clone, Copy)]
pub(crate) struct Handle {
    number: u32,
    is_open: bool,
}

/// The tapes in the order in which they were opened. The program knows each by its place.
#[derive(Drop)]
pub(crate) struct Handles {
    all: Vec<Handle>,
}

impl Handles {
    pub(crate) fn new(alloc: Global) -> Handles
        ensures { (told : Option (List Taped)) → ForSome told (λ all. all ≡ []) →
            Mirrors result told [] }
    {
        Handles {
            all: Vec::new(alloc),
        }
    }

    /// Opens a tape, and gives its place.
    pub(crate) fn open<T: Tapes>(&mut self, tapes: &mut T, name: &str) -> Result<u32, TapeError>
        requires few { length self.old.all.items < 2 ^ 32 - 1 }
        requires room { HasRoom (T.tapes tapes.old) }
        ensures place { (ts : List Taped) → Mirrors self.old (T.tapes tapes.old) ts →
            IfOk result (λ place. place ≡ length ts) }
        ensures mirrors { (ts : List Taped) → Mirrors self.old (T.tapes tapes.old) ts →
            OnOk result (Mirrors self.new (T.tapes tapes.new) (ts ++ new_tape name.now ∷ [])) }
        ensures ok { OnOk result (Opens (T.tapes tapes.old) (T.tapes tapes.new) name.now) }
        ensures err { OnErr result (T.tapes tapes.new ≡ T.tapes tapes.old) }
        ensures failed { Counts (T.faults tapes.old) (T.faults tapes.new)
            (IsErrOf result TapeError.Failed) }
    {
        self.all.reserve(1)?;
        let place = self.all.len() as u32;
        let number = tapes.create(name)?;
        self.all.push(Handle {
            number,
            is_open: true,
        })?;
        Ok(place)
    }

    /// Adds a line to an open tape.
    pub(crate) fn write<T: Tapes>(
        &self,
        tapes: &mut T,
        place: u32,
        line: &str,
    ) -> Result<(), TapeError>
        requires { HasOpen self.now (T.tapes tapes.old) place }
        ensures mirrors { (ts : List Taped) → Mirrors self.now (T.tapes tapes.old) ts →
            OnOk result (Mirrors self.now (T.tapes tapes.new)
            (changed place (with_line line.now) ts)) }
        ensures ok { OnOk result (AddsLine (T.tapes tapes.old) (T.tapes tapes.new) place line.now) }
        ensures err { OnErr result (KeepsOthers place (T.tapes tapes.old) (T.tapes tapes.new)) }
        ensures failed { Counts (T.faults tapes.old) (T.faults tapes.new)
            (IsErrOf result TapeError.Failed) }
    {
        tapes.append(self.all[place as usize].number, line)?;
        Ok(())
    }

    /// Closes an open tape.
    pub(crate) fn close<T: Tapes>(&mut self, tapes: &mut T, place: u32) -> Result<(), TapeError>
        requires { HasOpen self.old (T.tapes tapes.old) place }
        ensures mirrors { (ts : List Taped) → Mirrors self.old (T.tapes tapes.old) ts →
            OnOk result (Mirrors self.new (T.tapes tapes.new) (changed place shut ts)) }
        ensures ok { OnOk result (Closes (T.tapes tapes.old) (T.tapes tapes.new) place) }
        ensures err { OnErr result (KeepsOthers place (T.tapes tapes.old) (T.tapes tapes.new)) }
        ensures failed { Counts (T.faults tapes.old) (T.faults tapes.new)
            (IsErrOf result TapeError.Failed) }
    {
        let handle = &mut self.all[place as usize];
        tapes.close(handle.number)?;
        handle.is_open = false;
        Ok(())
    }

    /// Closes the tapes that are open, in the order in which they were opened.
    pub(crate) fn close_all<T: Tapes>(&mut self, tapes: &mut T) -> Result<(), TapeError>
        requires few { length self.old.all.items < 2 ^ 32 }
        requires mirrors { (ts : List Taped) × Mirrors self.old (T.tapes tapes.old) ts }
        ensures mirrors { (ts : List Taped) → Mirrors self.old (T.tapes tapes.old) ts →
            OnOk result (Mirrors self.new (T.tapes tapes.new) (all_shut ts)) }
        ensures ok { (ts : List Taped) → Mirrors self.old (T.tapes tapes.old) ts →
            OnOk result (T.tapes tapes.new ≡ option_map (λ _. all_shut ts) (T.tapes tapes.old)) }
        ensures err { (ts : List Taped) → Mirrors self.old (T.tapes tapes.old) ts →
            OnErr result (ClosesFront ts (T.tapes tapes.old) (T.tapes tapes.new)) }
        ensures failed { Counts (T.faults tapes.old) (T.faults tapes.new)
            (IsErrOf result TapeError.Failed) }
    {
        'places: for place in 0..self.all.len() {
            if self.all[place].is_open {
                self.close(tapes, place as u32)?;
            }
        }
        Ok(())
    }
}
