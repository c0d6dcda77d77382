//! The output of a run.

ghost use Rattle.std.specs.Prelude.{◌++◌, ◌∷◌, [], OnOk, OnErr, IsErrOf};
ghost use Rattle.qtt_edge.specs.Counts.{Counts};
ghost use Rattle.qtt_edge.specs.Sink.{Adds, AddsFront};

use qtt_edge::{Sink, SinkError};
use std::alloc::Global;

/// Puts a line and its byte 10, at once.
pub(crate) fn put_line<O: Sink>(alloc: Global, out: &mut O, line: &str) -> Result<(), SinkError>
    ensures ok { OnOk result (Adds (O.content out.old) (O.content out.new) (line.now ++ 10 ∷ [])) }
    ensures err { OnErr result
        (AddsFront (O.content out.old) (O.content out.new) (line.now ++ 10 ∷ [])) }
    ensures failed { Counts (O.faults out.old) (O.faults out.new)
        (IsErrOf result SinkError.Failed) }
{
    let bytes = format!(in alloc; "{line}\n")?;
    out.put(bytes.as_bytes())?;
    Ok(())
}
