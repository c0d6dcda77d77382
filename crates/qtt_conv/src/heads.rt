//! Heads within a number of contractions.

ghost use Rattle.std.specs.Prelude.{◌≡◌, IfOk};
ghost use Rattle.qtt_term.specs.Globals.{env as env_of};
ghost use Rattle.qtt_term.specs.View.{term};
ghost use Rattle.qtt_term.specs.Answers.{head as head_of};
ghost use Rattle.qtt_term.specs.Question.{head as head_within};

use crate::spine::{Spine, Step};
use qtt_base::MemoryError;
use qtt_term::{Globals, Head, Term};
use std::alloc::Global;

/// The head of a term within `n` contractions.
pub fn head_within(alloc: Global, n: u64, env: &Globals, t: &Term) -> Result<Head, MemoryError>
    ensures { IfOk result (λ h. head_of h ≡ head_within (env_of env.now) n (term t.now)) }
{
    let mut spine = Spine::of(alloc, t)?;
    let mut made = 0;
    loop {
        match spine.step(alloc, env)? {
            Step::Head(head) => return Ok(Head::Done(head, made)),
            Step::Contracted(next) => {
                if made == n {
                    return Ok(Head::Spent);
                }
                made += 1;
                spine = next;
            }
        }
    }
}
