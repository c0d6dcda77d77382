//! One problem: the indices of a variable's type against found result indices.

ghost use Rattle.qtt_term.specs.Globals.{env as env_of};
ghost use Rattle.qtt_unify.specs.Problems.{solved_by};
ghost use Rattle.qtt_unify.specs.View.{problem as problem_of, scrutinee as scrutinee_of, verdict as verdict_of, solved as solved_of, Answers, Unified};

use crate::equations::Verdict;
use crate::error::UnifyError;
use crate::targets::Scrutinee;
use crate::unifier::{Unifier, depth_of};
use qtt_base::GlobalId;
use qtt_term::{Converter, Ctx, Globals, Term};
use std::alloc::Global;

/// The indices of a variable's type against the result indices of a constructor, all in one
/// context.
#[derive(Debug, Drop)]
pub struct Problem {
    pub ctx: Ctx,
    pub scrutinee: u32,
    /// The scrutinee's family.
    pub family: GlobalId,
    pub params: Vec<Term>,
    /// The indices of the scrutinee's type.
    pub targets: Vec<Term>,
    /// The result indices.
    pub found: Vec<Term>,
}

/// What a problem comes to: it is solved, it clashes, it is a deletion, or it is stuck.
#[derive(Debug, Drop)]
pub enum Solved {
    /// Variables, and what solves them.
    Solution(Vec<(u32, Term)>),
    Clash,
    Deletion,
    /// The first result index that is stuck, and its target.
    Stuck(Term, Term),
}

/// Unifies the indices of a variable's type with found result indices. Each question has `budget`
/// contractions; the first one that these do not answer is the refusal `Spent`.
pub fn solve<C: Converter>(
    alloc: Global,
    converter: &C,
    budget: u64,
    env: &Globals,
    problem: &Problem,
) -> Result<Solved, UnifyError>
    ensures { Unified (env_of env.now) budget (problem_of problem.now) result }
{
    let unifier = Unifier {
        alloc,
        converter,
        budget,
        globals: env,
    };
    let depth = depth_of(&problem.ctx.vars)?;
    let targets = unifier.readings(depth, &problem.targets)?;
    let scrutinee = Scrutinee {
        context: &problem.ctx.vars,
        variable: problem.scrutinee,
        params: &problem.params,
        indices: &problem.targets,
        targets: &targets,
    };
    let verdict = unifier.verdict(&scrutinee, 0, &problem.found)?;
    unifier.solved_by(problem.family, &scrutinee, verdict)
}

impl<'a, C: Converter> Unifier<'a, C> {
    /// What is stuck may be a deletion.
    fn solved_by(
        &self,
        family: GlobalId,
        scrutinee: &Scrutinee<'_>,
        verdict: Verdict,
    ) -> Result<Solved, UnifyError>
        ensures { Answers self.now
            (solved_by tt family (scrutinee_of scrutinee.now) (verdict_of verdict))
            solved_of result }
    {
        match verdict {
            Verdict::Solved(solutions) => Ok(Solved::Solution(solutions)),
            Verdict::Clash => Ok(Solved::Clash),
            Verdict::Stuck(_, index, target) => match self.deletion(family, scrutinee)? {
                Some(_) => Ok(Solved::Deletion),
                None => Ok(Solved::Stuck(index, target)),
            },
        }
    }
}
