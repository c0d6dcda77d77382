//! Any reader of std as a source.

ghost use Rattle.std.specs.Prelude.{None};

use crate::counts::risen;
use crate::source::{Source, SourceError};
use std::io::Read;

/// A reader, with counts of its errors and of its ends.
#[derive(Drop)]
pub struct StdSource<R> {
    reader: R,
    faults: u64,
    ends: u64,
}

impl<R> StdSource<R> {
    pub fn new(reader: R) -> StdSource<R> {
        StdSource {
            reader,
            faults: 0,
            ends: 0,
        }
    }
}

impl<R: Read> Source for StdSource<R> {
    ghost content = { λ _. None };

    ghost faults = { λ s. s.faults };

    ghost pulls = { λ _. 0 };

    ghost ends = { λ s. s.ends };

    fn pull(&mut self, buf: &mut [u8]) -> Result<usize, SourceError> {
        let Ok(count) = self.reader.read(buf) else {
            self.faults = risen(self.faults);
            return Err(SourceError::Failed);
        };
        if count == 0 && !buf.is_empty() {
            self.ends = risen(self.ends);
        }
        Ok(count)
    }
}
