//! The input of a run.

ghost use Rattle.std.specs.Prelude.{◌≡◌, ◌↔◌, ℕ, List, Option, IfSome, IfOk, OnOk, IsErrOf};
ghost use Rattle.qtt_edge.specs.Counts.{Counts};
ghost use Rattle.qtt_run.specs.Lines.{LeftOver, HasInput, Finds};

use qtt_base::MemoryError;
use qtt_edge::{LineCutter, LineError, Next, Source};
use qtt_prims::Text;
use std::alloc::Global;

/// The lines that a run reads. Behind the end of the input the source is not asked again.
#[derive(Drop)]
pub(crate) struct Lines {
    cutter: LineCutter,
    at_end: bool,
}

/// What stands next.
#[derive(Debug, Drop)]
pub(crate) enum Found {
    Line(Text),
    End,
    /// More bytes than a line may have, or no UTF-8.
    Bad,
}

impl Lines {
    pub(crate) fn new(alloc: Global) -> Result<Lines, MemoryError>
        ensures { (content : Option (List ℕ)) (input : List ℕ) →
            IfOk result (λ lines. LeftOver lines content input ↔ IfSome content
            (λ all. input ≡ all)) }
    {
        Ok(Lines {
            cutter: LineCutter::new(alloc)?,
            at_end: false,
        })
    }

    /// Takes the next line.
    pub(crate) fn next<S: Source>(&mut self, source: &mut S) -> Result<Found, LineError>
        // Whatever input may be left now, some input was left before in which this was found.
        ensures finds { (rest : List ℕ) → LeftOver self.new (S.content source.new) rest →
            IfOk result (λ found. (input : List ℕ) × LeftOver self.old
            (S.content source.old) input × Finds input rest found) }
        ensures more { HasInput self.old (S.content source.old) →
            OnOk result (HasInput self.new (S.content source.new)) }
        ensures failed { Counts (S.faults source.old) (S.faults source.new)
            (IsErrOf result LineError.Fault) }
    {
        if self.at_end {
            return Ok(Found::End);
        }
        match self.cutter.next_line(source)? {
            Next::Line(line) => Ok(Found::Line(line)),
            Next::End => {
                self.at_end = true;
                Ok(Found::End)
            }
            Next::TooLong | Next::NotUtf8 => Ok(Found::Bad),
        }
    }
}
