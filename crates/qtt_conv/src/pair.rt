//! One pair of a comparison.

ghost use Rattle.std.specs.Prelude.{IfOk};
ghost use Rattle.qtt_term.specs.Globals.{env as env_of};
ghost use Rattle.qtt_term.specs.View.{term};
ghost use Rattle.qtt_conv.specs.Pairs.{LeadsTo, HeadsLeadTo};

use crate::components::components;
use crate::heads::head_within;
use crate::outline::same_outline;
use qtt_base::MemoryError;
use qtt_term::{Globals, Head, Term};
use std::alloc::Global;

/// What the comparison of two terms leads to.
#[derive(Drop)]
pub enum Outcome {
    /// They are the same.
    Same,
    /// Their components are to be compared, after so many contractions.
    Splits(u64, Vec<Term>, Vec<Term>),
    Differs,
    Spent,
}

/// Compares two terms but for their components, within `n` contractions.
pub fn compared_pair(
    alloc: Global,
    n: u64,
    env: &Globals,
    t: &Term,
    u: &Term,
) -> Result<Outcome, MemoryError>
    ensures { IfOk result (λ o. LeadsTo (env_of env.now) n (term t.now) (term u.now) o) }
{
    if t.same(u) {
        return Ok(Outcome::Same);
    }
    match head_within(alloc, n, env, t)? {
        Head::Done(left, made) => match head_within(alloc, n - made, env, u)? {
            Head::Done(right, more) => heads_compared(alloc, made + more, left, right),
            Head::Spent => Ok(Outcome::Spent),
        },
        Head::Spent => Ok(Outcome::Spent),
    }
}

/// Compares two heads but for their components, after so many contractions.
fn heads_compared(alloc: Global, made: u64, left: Term, right: Term) -> Result<Outcome, MemoryError>
    ensures { IfOk result (λ o. HeadsLeadTo made (term left) (term right) o) }
{
    if same_outline(&left, &right) {
        Ok(Outcome::Splits(made, components(alloc, left)?, components(alloc, right)?))
    } else {
        Ok(Outcome::Differs)
    }
}
