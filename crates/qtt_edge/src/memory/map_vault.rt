//! A vault in memory.

ghost use Rattle.std.specs.Prelude.{◌≡◌, ◌≤◌, ◌↔◌, vec_len, IfOk, IsSome, IsErrOf};
ghost use Rattle.std.specs.BTreeMap.{get_by_text};
ghost use Rattle.qtt_edge.specs.Counts.{raised_if, Counts};
ghost use Rattle.qtt_edge.specs.Vault.{is_absent, Reads};
ghost use Rattle.qtt_edge.specs.MapVault.{told_texts};

use crate::counts::risen;
use crate::plan::{FailingCalls, FailurePlan, NeverFails};
use crate::vault::{Vault, VaultError};
use std::alloc::Global;
use std::collections::BTreeMap;

/// Module texts by name.
#[derive(Drop)]
pub struct MapVault<P> {
    pub texts: BTreeMap<String, Vec<u8>>,
    pub plan: P,
    pub misses: u64,
}

impl MapVault<NeverFails> {
    pub fn new(texts: BTreeMap<String, Vec<u8>>) -> MapVault<NeverFails>
        ensures texts { result.texts ≡ texts }
        ensures misses { result.misses ≡ 0 }
    {
        MapVault {
            texts,
            plan: NeverFails,
            misses: 0,
        }
    }
}

impl MapVault<FailingCalls> {
    /// The reads of these numbers fail, counted from 0.
    pub fn failing(texts: BTreeMap<String, Vec<u8>>, calls: Vec<u64>) -> MapVault<FailingCalls>
        ensures texts { result.texts ≡ texts }
        ensures misses { result.misses ≡ 0 }
        ensures plan { result.plan ≡ record { calls = calls; made = 0; faults = 0 } }
    {
        MapVault {
            texts,
            plan: FailingCalls::new(calls),
            misses: 0,
        }
    }
}

impl<P: FailurePlan> Vault for MapVault<P> {
    ghost texts = { told_texts };

    ghost faults = { λ s. P.faults s.plan };

    ghost misses = { λ s. s.misses };

    fn read(&mut self, alloc: Global, name: &str, max: usize) -> Result<Vec<u8>, VaultError>
        ensures same { told_texts self.new ≡ told_texts self.old }
        ensures short { IfOk result (λ text. vec_len text ≤ max) }
        ensures reads { Reads (told_texts self.old) name.now max result }
        ensures failed { Counts (P.faults self.old.plan) (P.faults self.new.plan)
            (IsErrOf result VaultError.Failed) }
        ensures absent { Counts self.old.misses self.new.misses (IsErrOf result VaultError.Absent) }

        // Each call is one of the plan, and fails exactly where the plan says so. A miss is
        // counted exactly where no text of that name is there; for that no memory is taken.
        ensures advanced { self.new.plan ≡ P.advanced self.old.plan }
        ensures texts { self.new.texts ≡ self.old.texts }
        ensures planned { IsErrOf result VaultError.Failed ↔ IsSome (P.upcoming self.old.plan) }
        ensures no_miss { IsErrOf result VaultError.Failed → self.new.misses ≡ self.old.misses }
        ensures misses { self.new.misses ≡ raised_if (is_absent result) self.old.misses }
        ensures room { IsErrOf result VaultError.Memory
            → IsSome (get_by_text self.old.texts name.now) }
    {
        if self.plan.next().is_some() {
            return Err(VaultError::Failed);
        }
        match self.texts.get(name) {
            None => {
                self.misses = risen(self.misses);
                Err(VaultError::Absent)
            }
            Some(text) => {
                let len = max.min(text.len());
                text[..len].to_vec(alloc).map_err(|_| VaultError::Memory)
            }
        }
    }
}
