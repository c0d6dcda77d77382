//! Questions about terms, whichever way they are answered.

ghost use Rattle.std.specs.Prelude.{◌≡◌, IfOk};
ghost use Rattle.qtt_term.specs.View.{term};
ghost use Rattle.qtt_term.specs.Globals.{env as env_of};
ghost use Rattle.qtt_term.specs.Question.{head as head_within, compare as compare_within};
ghost use Rattle.qtt_term.specs.Answers.{head as head_of, answer as answer_of};

use crate::globals::Globals;
use crate::term::Term;
use qtt_base::MemoryError;
use std::alloc::Global;

/// A place in a term: the numbers of the components on the way to it, from 0.
pub type Path = Vec<u32>;

/// What a head came to: the head, with the number of contractions made, or that one more than
/// may be made would be.
#[derive(Debug, Drop)]
pub enum Head {
    Done(Term, u64),
    Spent,
}

/// What a comparison came to. Different has the place of the first difference.
#[derive(Debug, Drop)]
pub enum Answer {
    Equal,
    Different(Path),
    Spent,
}

/// A question whose answer was Spent, with the number of the variables of the context in which
/// its terms stand.
#[derive(Debug, Drop)]
pub enum Question {
    Head(u32, Term),
    Compare(u32, Term, Term),
}

/// Answers questions within `n` contractions each.
pub trait Converter {
    fn head(&self, alloc: Global, n: u64, env: &Globals, t: &Term) -> Result<Head, MemoryError>
        ensures { IfOk result (λ h. head_of h ≡ head_within (env_of env.now) n (term t.now)) };

    fn compare(
        &self,
        alloc: Global,
        n: u64,
        env: &Globals,
        t: &Term,
        u: &Term,
    ) -> Result<Answer, MemoryError>
        ensures { IfOk result (λ a. answer_of a ≡ compare_within (env_of env.now) n (term t.now)
            (term u.now)) };
}
