//! Deciding whether terms are convertible, as far as a number of contractions shows it.

ghost use Rattle.std.specs.Prelude.{◌≡◌, ℕ, List, IfOk};
ghost use Rattle.qtt_term.specs.View.{term};
ghost use Rattle.qtt_term.specs.Globals.{env as env_of};
ghost use Rattle.qtt_term.specs.Contraction.{Conv};
ghost use Rattle.qtt_term.specs.Question.{compare as compare_within, Answer as answer};
ghost use Rattle.qtt_term.specs.Answers.{answer as answer_of};

use qtt_base::MemoryError;
use qtt_term::{Answer, Converter, Globals, Term};
use std::alloc::Global;

/// Compares two terms of one context within `n` contractions. Spent says nothing of conversion.
pub fn decide<C: Converter>(
    alloc: Global,
    converter: &C,
    n: u64,
    env: &Globals,
    t: &Term,
    u: &Term,
) -> Result<Answer, MemoryError>
    ensures exact { IfOk result
        (λ a. answer_of a ≡ compare_within (env_of env.now) n (term t.now) (term u.now)) }
    ensures equal { IfOk result
        (λ a. answer_of a ≡ answer.equal → Conv (env_of env.now) (term t.now) (term u.now)) }
    ensures different { IfOk result (λ a. (path : List ℕ) → answer_of a ≡ answer.different path →
        ¬ Conv (env_of env.now) (term t.now) (term u.now)) }
{
    converter.compare(alloc, n, env, t, u)
}
