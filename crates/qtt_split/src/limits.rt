//! Leaves that are counted, and terms that mention nothing reverted.

ghost use Rattle.std.specs.Prelude.{◌≡◌, IfOk, option_map};
ghost use Rattle.qtt_term.specs.View.{term};
ghost use Rattle.qtt_unify.specs.View.{all_terms};
ghost use Rattle.qtt_split.specs.Calls.{Answers, group_of, test_of};
ghost use Rattle.qtt_split.specs.Split.{count_leaf as counts_leaf, first_mentioning as mentions_first, nothing_there};
ghost use Rattle.qtt_split.specs.Tests.{at};

use crate::planner::{Planner, Test, refused};
use crate::reverting::mentions_some;
use qtt_base::{MemoryError, Quantity, Span};
use qtt_rules::{Detail, ElabError};
use qtt_term::{Converter, Term};

/// The first of these terms that mentions one of these variables.
fn first_mentioning<'t>(
    variables: &[u32],
    terms: &'t [Term],
) -> Result<Option<&'t Term>, MemoryError>
    ensures { IfOk result
        (λ o. option_map (λ t. term t.now) o ≡
        mentions_first variables.now (all_terms terms.now)) }
{
    for t in terms {
        if mentions_some(variables, t)? {
            return Ok(Some(t));
        }
    }
    Ok(None)
}

impl<'a, C: Converter> Planner<'a, C> {
    /// One leaf more, where so many more there may be.
    pub fn count_leaf(&self, left: u32) -> Result<u32, ElabError>
        ensures { Answers self.now (counts_leaf (group_of self.now) left) (λ n. n) result }
    {
        if left == 0 {
            let kept = Detail::Limit {
                quantity: Quantity::Leaves,
                count: u64::from(self.limit) + 1,
            };
            return Err(refused(kept, self.first, Test::Leaves));
        }
        Ok(left - 1)
    }

    /// No term mentions one of these variables, under so many in all.
    pub fn unmentioned(
        &self,
        depth: u32,
        variables: &[u32],
        terms: &[Term],
        span: Span,
        test: Test,
    ) -> Result<(), ElabError>
        ensures { Answers self.now
            (nothing_there (at span (test_of test)) depth
            (mentions_first variables.now (all_terms terms.now))) (λ u. u) result }
    {
        let alloc = self.unifier.alloc;
        match first_mentioning(variables, terms)? {
            Some(t) => {
                let left = t.copy(alloc)?;
                let right = t.copy(alloc)?;
                let kept = Detail::PatternStuck { depth, left, right };
                Err(refused(kept, span, test))
            }
            None => Ok(()),
        }
    }
}
