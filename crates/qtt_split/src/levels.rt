//! The level of a goal.

ghost use Rattle.std.specs.Prelude.{◌≡◌, Some, length, option_map};
ghost use Rattle.qtt_term.specs.Entries.{entries, env};
ghost use Rattle.qtt_term.specs.View.{term};
ghost use Rattle.qtt_unify.specs.View.{binders};
ghost use Rattle.qtt_split.specs.Calls.{Answers};
ghost use Rattle.qtt_split.specs.Levels.{type_of_goal, level_of_type};
ghost use Rattle.qtt_split.specs.Split.{level_in as level_of_sort, level_of as level_of_goal, level_where as level_if};
ghost use Rattle.qtt_split.specs.Tests.{Test as TestOf, at};

use crate::planner::{Planner, Test, refused};
use qtt_base::Span;
use qtt_core_check::{CoreRefusal, infer};
use qtt_rules::{Detail, ElabError};
use qtt_term::telescopes::{copied_binders, number};
use qtt_term::{Converter, Ctx, Sigma, Term};
use qtt_usage::mult::Mult;

/// The level of a Sort, and 0 of anything else.
fn level_in(head: &Term) -> u32
    ensures { result ≡ level_of_sort (term head.now) }
{
    match head {
        Term::Sort(level) => *level,
        _ => 0,
    }
}

impl<'a, C: Converter> Planner<'a, C> {
    /// The type of a goal in the erased part, where it has one.
    fn type_of_goal(
        &self,
        context: &[(Mult, Term)],
        goal: &Term,
        span: Span,
    ) -> Result<Option<Term>, ElabError>
        ensures { Answers self.now
            (type_of_goal (env (entries self.now.unifier.globals.now)) (binders context.now)
            (at span TestOf.level) (term goal.now)) (option_map term) result }
    {
        let alloc = self.unifier.alloc;
        let budget = self.unifier.budget;
        let scope = Ctx {
            vars: copied_binders(alloc, context)?,
            names: Vec::new(alloc),
        };
        match infer(
            alloc,
            self.unifier.converter,
            budget,
            self.unifier.globals,
            &scope,
            Sigma::Erased,
            goal,
        ) {
            Ok((ty, _)) => Ok(Some(ty)),
            Err(CoreRefusal::Fails(_, _)) => Ok(None),
            Err(CoreRefusal::Spent(question)) => {
                let kept = Detail::BudgetSpent { budget, question };
                Err(refused(kept, span, Test::Level))
            }
            Err(CoreRefusal::Memory) => Err(ElabError::Memory),
        }
    }

    /// The level of the Sort that a type is, and 0 of anything else.
    fn level_of_type(
        &self,
        context: &[(Mult, Term)],
        ty: &Term,
        span: Span,
    ) -> Result<u32, ElabError>
        ensures { Answers self.now
            (level_of_type (at span TestOf.level) (length (binders context.now))
            (Some (term ty.now))) (λ l. l) result }
    {
        let depth = number(context.len())?;
        let head = self.head(depth, ty, span, Test::Level)?;
        Ok(level_in(&head))
    }

    /// The level of the Sort that is the type of a goal, and 0 where it has none.
    fn level_of(&self, context: &[(Mult, Term)], goal: &Term, span: Span) -> Result<u32, ElabError>
        ensures { Answers self.now
            (level_of_goal (env (entries self.now.unifier.globals.now)) (binders context.now)
            (at span TestOf.level) (term goal.now)) (λ l. l) result }
    {
        let found = self.type_of_goal(context, goal, span)?;
        match found {
            Some(ty) => self.level_of_type(context, &ty, span),
            None => Ok(0),
        }
    }

    /// The level of a goal, where it is asked for.
    pub fn level_where(
        &self,
        asked: bool,
        context: &[(Mult, Term)],
        goal: &Term,
        span: Span,
    ) -> Result<u32, ElabError>
        ensures { Answers self.now
            (level_if asked
            (level_of_goal (env (entries self.now.unifier.globals.now)) (binders context.now)
            (at span TestOf.level) (term goal.now))) (λ l. l) result }
    {
        if asked {
            self.level_of(context, goal, span)
        } else {
            Ok(0)
        }
    }
}
