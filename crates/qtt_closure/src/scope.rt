//! The variables in scope of a part of a function.

ghost use Rattle.std.specs.Prelude.{◌≡◌, ◌≤◌, IfOk, count_by, length, take};
ghost use Rattle.qtt_erase.specs.Erasure.{place_at};
ghost use Rattle.qtt_closure.specs.Scopes.{slots};

use qtt_base::MemoryError;

/// The variables in scope, the newest first, and which of them the function has.
#[derive(Drop)]
pub enum Scope<'a> {
    /// Of the variables around the function whether it captures each.
    Captures(&'a [bool]),
    /// So many more variables.
    Bound(&'a Scope<'a>, u32),
}

#[tactic(auto, using(crate::proofs::Scoping::scopings))]
impl<'a> Scope<'a> {
    /// How many variables are in scope.
    pub fn count(&self) -> Result<usize, MemoryError>
        ensures { IfOk result (λ n. n ≡ length (slots self.now)) }
    {
        match self {
            Scope::Captures(captures) => Ok(captures.len()),
            Scope::Bound(outer, more) => {
                let count = outer.count()?;
                count.checked_add(*more as usize).ok_or(MemoryError)
            }
        }
    }

    /// How many of the newer variables the function has.
    pub fn place(&self, index: usize) -> usize
        ensures place { result ≡ place_at (slots self.now) index }
        ensures fits { result ≤ index }
    {
        match self {
            Scope::Captures(captures) => captured_before(captures, index),
            Scope::Bound(outer, more) => {
                let more = *more as usize;
                if index < more {
                    index
                } else {
                    more + outer.place(index - more)
                }
            }
        }
    }
}

/// How many of the first so many variables are captured.
fn captured_before(captures: &[bool], count: usize) -> usize
    ensures value { result ≡ count_by (λ b. b) (take count captures.now) }
    ensures fits { result ≤ count }
{
    captures
        .iter()
        .take(count)
        .filter(|captured| **captured)
        .count()
}
