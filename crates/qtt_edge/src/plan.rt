//! Which calls of an object in memory fail.

ghost use Rattle.std.specs.Prelude.{◌≡◌, ◌+◌, ◌≤◌, ℕ, Option, Some, None, IsSome, if◌then◌else◌};
ghost use Rattle.qtt_edge.specs.Counts.{Counts};
ghost use Rattle.qtt_edge.specs.Plan.{taken_next};

use crate::counts::risen;

/// Tells for each call of an object, in turn, whether it fails, and counts those that do.
pub trait FailurePlan {
    ghost faults: { Self → ℕ };

    /// How many calls were made, where it counts them.
    ghost made: { Self → ℕ };

    /// For a next call that fails, the number of bytes that it still takes.
    ghost upcoming: { Self → Option ℕ };

    /// What the plan is behind the next call: who knows a plan knows which of all later calls
    /// fail.
    ghost advanced: { Self → Self };

    fn next(&mut self) -> Option<usize>
        ensures planned { result ≡ upcoming self.old }
        ensures advances { self.new ≡ advanced self.old }
        ensures counted { made self.new ≤ made self.old + 1 }
        ensures failed { Counts (faults self.old) (faults self.new) (IsSome result) };
}

/// No call fails, so the count of faults is 0 always.
#[derive(Clone, Copy, Debug, PartialEq, Eq, Drop)]
pub struct NeverFails;

impl FailurePlan for NeverFails {
    ghost faults = { λ _. 0 };

    ghost made = { λ _. 0 };

    ghost upcoming = { λ _. None };

    ghost advanced = { λ p. p };

    fn next(&mut self) -> Option<usize> {
        None
    }
}

/// The calls of these numbers fail, counted from 0, and take nothing. `made` is the number of
/// the next call; it ends at the greatest number, as each count does, and all calls from there
/// on have that one.
#[derive(Debug, Drop)]
pub struct FailingCalls {
    pub calls: Vec<u64>,
    pub made: u64,
    pub faults: u64,
}

impl FailingCalls {
    pub fn new(calls: Vec<u64>) -> FailingCalls
        ensures { result ≡ record { calls = calls; made = 0; faults = 0 } }
    {
        FailingCalls {
            calls,
            made: 0,
            faults: 0,
        }
    }
}

impl FailurePlan for FailingCalls {
    ghost use Rattle.qtt_edge.specs.Plan.{is_failing, behind_call};

    ghost faults = { λ p. p.faults };

    ghost made = { λ p. p.made };

    ghost upcoming = { λ p. if is_failing p then Some 0 else None };

    ghost advanced = { behind_call };

    fn next(&mut self) -> Option<usize> {
        let call = self.made;
        self.made = risen(call);
        if !self.calls.contains(&call) {
            return None;
        }
        self.faults = risen(self.faults);
        Some(0)
    }
}

/// A put that fails: its number, counted from 0, and how many bytes it still takes.
#[derive(Clone, Copy, Debug, PartialEq, Eq)]
pub struct FailingPut {
    pub call: u64,
    pub taken: usize,
}

/// The puts of this list fail. `made` is the number of the next put, as in `FailingCalls`.
#[derive(Debug, Drop)]
pub struct FailingPuts {
    pub puts: Vec<FailingPut>,
    pub made: u64,
    pub faults: u64,
}

impl FailingPuts {
    pub fn new(puts: Vec<FailingPut>) -> FailingPuts
        ensures { result ≡ record { puts = puts; made = 0; faults = 0 } }
    {
        FailingPuts {
            puts,
            made: 0,
            faults: 0,
        }
    }

    /// How many bytes the next put still takes, where it fails.
    fn taken(&self) -> Option<usize>
        ensures { result ≡ taken_next self.now }
    {
        let call = self.made;
        self.puts
            .iter()
            .find(|put| put.call == call)
            .map(|put| put.taken)
    }
}

impl FailurePlan for FailingPuts {
    ghost use Rattle.qtt_edge.specs.Plan.{taken_next, behind_put};

    ghost faults = { λ p. p.faults };

    ghost made = { λ p. p.made };

    ghost upcoming = { taken_next };

    ghost advanced = { behind_put };

    fn next(&mut self) -> Option<usize> {
        let taken = self.taken();
        self.made = risen(self.made);
        if taken.is_some() {
            self.faults = risen(self.faults);
        }
        taken
    }
}
