//! Any writer of std as a sink.

ghost use Rattle.std.specs.Prelude.{None};

use crate::counts::risen;
use crate::sink::{Sink, SinkError};
use std::io::Write;

/// A writer, which is flushed after each put.
#[derive(Drop)]
pub struct StdSink<W> {
    writer: W,
    faults: u64,
}

impl<W> StdSink<W> {
    pub fn new(writer: W) -> StdSink<W> {
        StdSink { writer, faults: 0 }
    }
}

impl<W: Write> Sink for StdSink<W> {
    ghost content = { λ _. None };

    ghost faults = { λ s. s.faults };

    fn put(&mut self, bytes: &[u8]) -> Result<(), SinkError> {
        if self.writer.write_all(bytes).is_ok() && self.writer.flush().is_ok() {
            return Ok(());
        }
        self.faults = risen(self.faults);
        Err(SinkError::Failed)
    }
}
