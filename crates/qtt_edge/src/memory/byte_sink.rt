//! A sink in memory.

ghost use Rattle.std.specs.Prelude.{◌≡◌, ◌≢◌, ◌++◌, [], take, IfSome, IfNone, IsNone, OnOk, OnErr, IsErrOf};
ghost use Rattle.qtt_edge.specs.Counts.{Counts};
ghost use Rattle.qtt_edge.specs.Sink.{Adds, AddsFront};
ghost use Rattle.qtt_edge.specs.ByteSink.{told_bytes};

use crate::plan::{FailingPut, FailingPuts, FailurePlan, NeverFails};
use crate::sink::{Sink, SinkError};
use std::alloc::Global;

/// The bytes that were put.
#[derive(Drop)]
pub struct ByteSink<P> {
    pub bytes: Vec<u8>,
    pub plan: P,
}

impl ByteSink<NeverFails> {
    pub fn new(alloc: Global) -> ByteSink<NeverFails>
        ensures { result.bytes.items ≡ [] }
    {
        ByteSink {
            bytes: Vec::new(alloc),
            plan: NeverFails,
        }
    }
}

impl ByteSink<FailingPuts> {
    /// These puts fail.
    pub fn failing(alloc: Global, puts: Vec<FailingPut>) -> ByteSink<FailingPuts>
        ensures bytes { result.bytes.items ≡ [] }
        ensures plan { result.plan ≡ record { puts = puts; made = 0; faults = 0 } }
    {
        ByteSink {
            bytes: Vec::new(alloc),
            plan: FailingPuts::new(puts),
        }
    }
}

impl<P: FailurePlan> Sink for ByteSink<P> {
    ghost content = { told_bytes };

    ghost faults = { λ s. P.faults s.plan };

    fn put(&mut self, bytes: &[u8]) -> Result<(), SinkError>
        ensures ok { OnOk result (Adds (told_bytes self.old) (told_bytes self.new) bytes.now) }
        ensures err { OnErr result
            (AddsFront (told_bytes self.old) (told_bytes self.new) bytes.now) }
        ensures failed { Counts (P.faults self.old.plan) (P.faults self.new.plan)
            (IsErrOf result SinkError.Failed) }

        // Each call is one of the plan. It fails only where the plan says so, and has then taken
        // as many bytes as it says; with want of memory it has taken none.
        ensures advanced { self.new.plan ≡ P.advanced self.old.plan }
        ensures memory { IsErrOf result SinkError.Memory
            → told_bytes self.new ≡ told_bytes self.old }
        ensures unplanned { IfNone (P.upcoming self.old.plan) (result ≢ Err SinkError.Failed) }
        ensures planned { IfSome (P.upcoming self.old.plan)
            (λ count. IsErrOf result SinkError.Failed
            → Adds (told_bytes self.old) (told_bytes self.new) (take count bytes.now)) }
        ensures no_success { OnOk result (IsNone (P.upcoming self.old.plan)) }
    {
        match self.plan.next() {
            None => append(&mut self.bytes, bytes),
            Some(count) => {
                append(&mut self.bytes, &bytes[..count.min(bytes.len())])?;
                Err(SinkError::Failed)
            }
        }
    }
}

fn append(all: &mut Vec<u8>, bytes: &[u8]) -> Result<(), SinkError>
    ensures ok { OnOk result (all.new.items ≡ all.old.items ++ bytes.now) }
    ensures err { OnErr result (all.new.items ≡ all.old.items) }
    ensures memory { result ≢ Err SinkError.Failed }
{
    match all.extend_from_slice(bytes) {
        Ok(()) => Ok(()),
        Err(_) => Err(SinkError::Memory),
    }
}
