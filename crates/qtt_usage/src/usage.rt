//! How often each variable of a context is used.

ghost use Rattle.std.specs.Prelude.{◌≡◌, ◌<◌, ◌∷◌, ◌==◌, length, slice_get, slice_set, IfOk, OnOk, OnErr};
ghost use Rattle.qtt_usage.specs.declared.mult.Mult.TheVariants.{Zero};
ghost use Rattle.qtt_usage.specs.declared.usage.UsageError.TheVariants.{Memory};
ghost use Rattle.qtt_usage.specs.Usage.{usage_sum, usage_join, usage_scale, no_usage, usage_unit};

use crate::mult::Mult;
use smallvec::SmallVec;
use std::alloc::{AllocError, AllocFailed, Global};
use std::marker::Model;
use thiserror::Error;

/// Want of memory.
#[derive(Clone, Copy, Debug, PartialEq, Eq, Error)]
pub enum UsageError {
    #[error("out of memory")]
    Memory,
}

impl From<AllocError> for UsageError {
    ghost from_gives = { λ _ e. e ≡ Memory };

    fn from(_error: AllocError) -> UsageError {
        UsageError::Memory
    }
}

impl<T: Drop> From<AllocFailed<T>> for UsageError {
    ghost from_gives = { λ _ e. e ≡ Memory };

    fn from(_error: AllocFailed<T>) -> UsageError {
        UsageError::Memory
    }
}

/// The uses of a context's variables, the newest variable first. The uses of
/// up to sixteen variables lie in the value itself.
#[derive(Debug, Drop)]
pub struct Usage {
    entries: SmallVec<Mult, 16>,
}

impl Model for Usage {
    ghost use Rattle.std.specs.Prelude.{List};
    ghost use Rattle.qtt_usage.specs.declared.mult.Mult.{Mult};

    ghost Value = { List Mult };

    ghost view = { λ u. u.entries.items };
}

impl Usage {
    /// No use of any of `n` variables.
    pub fn zero(alloc: Global, n: usize) -> Result<Usage, UsageError>
        ensures uses { IfOk result (λ u. u ≡ no_usage n) }
        ensures len { IfOk result (λ u. length u ≡ n) }
    {
        Ok(Usage {
            entries: SmallVec::from_elem(alloc, Mult::Zero, n)?,
        })
    }

    /// One use of variable `i` of `n`.
    pub fn unit(alloc: Global, n: usize, i: usize) -> Result<Usage, UsageError>
        requires { i < n }
        ensures uses { IfOk result (λ u. u ≡ usage_unit n i) }
        ensures len { IfOk result (λ u. length u ≡ n) }
    {
        let mut usage = Usage::zero(alloc, n)?;
        usage.entries[i] = Mult::One;
        Ok(usage)
    }

    /// How many variables the context has.
    pub fn len(&self) -> usize
        ensures { result ≡ length self.now }
    {
        self.entries.len()
    }

    /// Whether the context has no variable.
    pub fn is_empty(&self) -> bool
        ensures { result ≡ (length self.now == 0) }
    {
        self.entries.is_empty()
    }

    /// The use of variable `i`.
    pub fn get(&self, i: usize) -> Mult
        requires { i < length self.now }
        ensures { slice_get self.now i ≡ Some result }
    {
        self.entries[i]
    }

    /// The same uses in a value of their own.
    pub fn copy(&self, alloc: Global) -> Result<Usage, UsageError>
        ensures { IfOk result (λ u. u ≡ self.now) }
    {
        Ok(Usage {
            entries: SmallVec::from_slice(alloc, self.entries.as_slice())?,
        })
    }

    /// What two uses of one context make together.
    pub fn add(&mut self, other: &Usage)
        requires { length self.old ≡ length other.now }
        ensures uses { self.new ≡ usage_sum self.old other.now }
        ensures len { length self.new ≡ length self.old }
    {
        add_entries(self.entries.as_mut_slice(), other.entries.as_slice());
    }

    /// The use of two branches, one of which is taken.
    pub fn join(&mut self, other: &Usage)
        requires { length self.old ≡ length other.now }
        ensures uses { self.new ≡ usage_join self.old other.now }
        ensures len { length self.new ≡ length self.old }
    {
        join_entries(self.entries.as_mut_slice(), other.entries.as_slice());
    }

    /// The use inside what is itself used so often.
    pub fn scale(&mut self, by: Mult)
        ensures uses { self.new ≡ usage_scale by self.old }
        ensures len { length self.new ≡ length self.old }
    {
        scale_entries(self.entries.as_mut_slice(), by);
    }

    /// Takes the use of variable `i` out, which is then not used.
    pub fn take(&mut self, i: usize) -> Mult
        requires { i < length self.old }
        ensures taken { slice_get self.old i ≡ Some result }
        ensures cleared { self.new ≡ slice_set self.old i Zero }
        ensures len { length self.new ≡ length self.old }
    {
        let used = self.entries[i];
        self.entries[i] = Mult::Zero;
        used
    }

    /// Puts the use of a new variable in front.
    pub fn push(&mut self, used: Mult) -> Result<(), UsageError>
        ensures ok { OnOk result (self.new ≡ used ∷ self.old) }
        ensures err { OnErr result (self.new ≡ self.old) }
    {
        self.entries.insert(0, used)?;
        Ok(())
    }

    /// Takes the newest variable away, and answers its use.
    pub fn pop(&mut self) -> Mult
        requires { 0 < length self.old }
        ensures { self.old ≡ result ∷ self.new }
    {
        self.entries.remove(0)
    }
}

fn add_entries(entries: &mut [Mult], others: &[Mult])
    requires { length entries.old ≡ length others.now }
    ensures { entries.new ≡ usage_sum entries.old others.now }
{
    for (i, entry) in entries.iter_mut().enumerate() {
        *entry = entry.add(others[i]);
    }
}

fn join_entries(entries: &mut [Mult], others: &[Mult])
    requires { length entries.old ≡ length others.now }
    ensures { entries.new ≡ usage_join entries.old others.now }
{
    for (i, entry) in entries.iter_mut().enumerate() {
        *entry = entry.join(others[i]);
    }
}

fn scale_entries(entries: &mut [Mult], by: Mult)
    ensures { entries.new ≡ usage_scale by entries.old }
{
    for entry in entries.iter_mut() {
        *entry = by.mul(*entry);
    }
}

#[cfg(test)]
mod tests {
    use super::*;

    #[test]
    fn variable_used_in_one_of_two_branches(rt: HostRuntime) -> Result<(), UsageError> {
        let mut first = Usage::unit(rt.alloc(), 2, 0)?;
        let second = Usage::zero(rt.alloc(), 2)?;
        assert!(rt; !first.is_empty());
        first.join(&second);
        assert_eq!(rt; (first.get(0), first.get(1)), (Mult::Many, Mult::Zero));
        Ok(())
    }

    #[test]
    fn variable_used_twice_under_a_binder(rt: HostRuntime) -> Result<(), UsageError> {
        let once = Usage::unit(rt.alloc(), 20, 19)?;
        let mut body = once.copy(rt.alloc())?;
        body.add(&once);
        body.push(Mult::One)?;
        assert_eq!(rt; body.len(), 21);
        assert_eq!(rt; body.pop(), Mult::One);
        assert_eq!(rt; body.take(19), Mult::Many);
        assert_eq!(rt; body.get(19), Mult::Zero);
        Ok(())
    }

    #[test]
    fn erased_argument_uses_nothing(rt: HostRuntime) -> Result<(), UsageError> {
        let mut argument = Usage::unit(rt.alloc(), 1, 0)?;
        argument.scale(Mult::Many);
        assert_eq!(rt; argument.get(0), Mult::Many);
        argument.scale(Mult::Zero);
        assert_eq!(rt; argument.get(0), Mult::Zero);
        Ok(())
    }
}
