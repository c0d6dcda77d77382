//! Questions of unification, asked at a place of the text.

ghost use Rattle.std.specs.Prelude.{option_map};
ghost use Rattle.qtt_term.specs.Entries.{entries, env};
ghost use Rattle.qtt_unify.specs.Deletion.{deletion as deletes};
ghost use Rattle.qtt_unify.specs.Equations.{constructor_verdict};
ghost use Rattle.qtt_unify.specs.Targets.{readings as read_all};
ghost use Rattle.qtt_unify.specs.View.{all_terms, scrutinee as scrutinee_of, verdict as verdict_of, deletion as deletion_of};
ghost use Rattle.qtt_split.specs.Calls.{Answers, test_of};
ghost use Rattle.qtt_split.specs.Tests.{Test as TestOf, at};

use crate::planner::{Planner, Test};
use qtt_base::{GlobalId, Span};
use qtt_rules::ElabError;
use qtt_term::{Converter, Term};
use qtt_unify::{Deletion, Scrutinee, Verdict};

impl<'a, C: Converter> Planner<'a, C> {
    /// The readings of indices under so many variables.
    pub fn readings(
        &self,
        depth: u32,
        indices: &[Term],
        span: Span,
        test: Test,
    ) -> Result<Vec<Term>, ElabError>
        ensures { Answers self.now
            (read_all (at span (test_of test)) depth (all_terms indices.now))
            (λ v. all_terms v.items) result }
    {
        match self.unifier.readings(depth, indices) {
            Ok(targets) => Ok(targets),
            Err(error) => Err(self.told(error, span, test)),
        }
    }

    /// What a constructor with so many fields and these result indices comes to.
    pub fn verdict(
        &self,
        scrutinee: &Scrutinee<'_>,
        fields: u32,
        results: &[Term],
        span: Span,
    ) -> Result<Verdict, ElabError>
        ensures { Answers self.now
            (constructor_verdict (env (entries self.now.unifier.globals.now))
            (at span TestOf.equations) (scrutinee_of scrutinee.now) fields
            (all_terms results.now)) verdict_of result }
    {
        match self.unifier.verdict(scrutinee, fields, results) {
            Ok(verdict) => Ok(verdict),
            Err(error) => Err(self.told(error, span, Test::Equations)),
        }
    }

    /// Whether a proof of `Eq` that is stuck may be deleted.
    pub fn deletion<'t>(
        &self,
        family: GlobalId,
        scrutinee: &Scrutinee<'t>,
        span: Span,
    ) -> Result<Option<Deletion<'t>>, ElabError>
        ensures { Answers self.now
            (deletes (at span TestOf.deletion) family (scrutinee_of scrutinee.now))
            (option_map deletion_of) result }
    {
        match self.unifier.deletion(family, scrutinee) {
            Ok(found) => Ok(found),
            Err(error) => Err(self.told(error, span, Test::Deletion)),
        }
    }
}
