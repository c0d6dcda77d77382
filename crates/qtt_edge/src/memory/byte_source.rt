//! A source in memory.

ghost use Rattle.std.specs.Prelude.{◌≡◌, ◌+◌, ◌<◌, ◌≤◌, ◌↔◌, length, vec_len, is_some, IfOk, OnErr, IsSome, IsErrOf};
ghost use Rattle.qtt_edge.specs.Counts.{Counts};
ghost use Rattle.qtt_edge.specs.Source.{Gives, IsAtEnd};

use crate::counts::risen;
use crate::plan::{FailingCalls, FailurePlan, NeverFails};
use crate::source::{Source, SourceError};

/// Bytes of which the first `at` were given.
#[derive(Drop)]
pub struct ByteSource<P> {
    pub bytes: Vec<u8>,
    pub at: usize,
    pub plan: P,
    pub ends: u64,
    pub ghost within: { at ≤ vec_len bytes },
}

impl ByteSource<NeverFails> {
    pub fn new(bytes: Vec<u8>) -> ByteSource<NeverFails>
        ensures bytes { result.bytes ≡ bytes }
        ensures at { result.at ≡ 0 }
        ensures ends { result.ends ≡ 0 }
    {
        ByteSource {
            bytes,
            at: 0,
            plan: NeverFails,
            ends: 0,
        }
    }
}

impl ByteSource<FailingCalls> {
    /// The pulls of these numbers fail, counted from 0.
    pub fn failing(bytes: Vec<u8>, calls: Vec<u64>) -> ByteSource<FailingCalls>
        ensures bytes { result.bytes ≡ bytes }
        ensures at { result.at ≡ 0 }
        ensures ends { result.ends ≡ 0 }
        ensures plan { result.plan ≡ record { calls = calls; made = 0; faults = 0 } }
    {
        ByteSource {
            bytes,
            at: 0,
            plan: FailingCalls::new(calls),
            ends: 0,
        }
    }
}

impl<P: FailurePlan> Source for ByteSource<P> {
    ghost use Rattle.qtt_edge.specs.ByteSource.{told_left};
    ghost use Rattle.qtt_edge.specs.Pull.{Pulls};

    ghost content = { told_left };

    ghost faults = { λ s. P.faults s.plan };

    ghost ends = { λ s. s.ends };

    ghost pulls = { λ s. P.made s.plan };

    fn pull(&mut self, buf: &mut [u8]) -> Result<usize, SourceError>
        ensures within { IfOk result (λ count. count ≤ length buf.old) }
        ensures gives { IfOk result
            (λ count. Gives (told_left self.old) (told_left self.new) buf.new count) }
        ensures end { 0 < length buf.old → result ≡ Ok 0 → IsAtEnd (told_left self.old) }
        ensures told { OnErr result (is_some (told_left self.new) ≡ is_some (told_left self.old)) }
        ensures pulled { P.made self.new.plan ≤ P.made self.old.plan + 1 }
        ensures ended { Counts self.old.ends self.new.ends
            ((0 < length buf.old) × (result ≡ Ok 0)) }
        ensures failed { Counts (P.faults self.old.plan) (P.faults self.new.plan)
            (IsErrOf result SourceError.Failed) }

        // Each call is one of the plan. It fails exactly where the plan says so, and then
        // changes nothing else. Else it gives as many bytes as are left and have room, and
        // counts an end where there is room and none is left.
        ensures advanced { self.new.plan ≡ P.advanced self.old.plan }
        ensures bytes { self.new.bytes ≡ self.old.bytes }
        ensures planned { IsErrOf result SourceError.Failed ↔ IsSome (P.upcoming self.old.plan) }
        ensures kept { OnErr result (told_left self.new ≡ told_left self.old) }
        ensures no_end { OnErr result (self.new.ends ≡ self.old.ends) }
        ensures stays { OnErr result (self.new.at ≡ self.old.at) }
        ensures buffer { OnErr result (buf.new ≡ buf.old) }
        ensures pulls { IfOk result (Pulls self.old self.new buf.old buf.new) }
    {
        if self.plan.next().is_some() {
            return Err(SourceError::Failed);
        }
        let left = &self.bytes[self.at..];
        if left.is_empty() && !buf.is_empty() {
            self.ends = risen(self.ends);
            return Ok(0);
        }
        let count = buf.len().min(left.len());
        buf[..count].copy_from_slice(&left[..count]);
        self.at += count;
        Ok(count)
    }
}
