//! Numbers of patterns.

ghost use Rattle.std.specs.Prelude.{◌≡◌, map};
ghost use Rattle.qtt_syntax.specs.View.{shape_of};
ghost use Rattle.qtt_term.specs.Entries.{entries};
ghost use Rattle.qtt_match.specs.Constructors.{named_constructor as constructor_named};
ghost use Rattle.qtt_split.specs.Calls.{Answers, group_of};
ghost use Rattle.qtt_split.specs.Plan.{width as clause_width, so_wide, has_count, full as is_full, patterns_full, clauses_full};

use crate::planner::{Planner, Test, counted, fields_at, named_constructor};
use qtt_base::Span;
use qtt_rules::ElabError;
use qtt_syntax::{Named, Pattern};
use qtt_term::Converter;

impl<'a, C: Converter> Planner<'a, C> {
    /// The number of patterns of the first clause.
    pub fn width(&self) -> usize
        ensures { result ≡ clause_width (group_of self.now).clauses }
    {
        match self.clauses.first() {
            Some(clause) => clause.patterns.len(),
            None => 0,
        }
    }

    /// Each clause has so many patterns.
    pub fn so_wide(&self, width: usize) -> Result<(), ElabError>
        ensures { Answers self.now (so_wide width (group_of self.now).clauses) (λ u. u) result }
    {
        for clause in self.clauses {
            counted(width, clause.patterns.len(), clause.span, Test::OneWidth)?;
        }
        Ok(())
    }

    /// A constructor has so many fields.
    fn has_count(&self, name: &Named, count: usize, span: Span) -> Result<(), ElabError>
        ensures { Answers self.now (has_count (entries self.now.unifier.globals.now)
            (constructor_named (entries self.now.unifier.globals.now).families name.now.target)
            count span) (λ u. u) result }
    {
        match named_constructor(self.unifier.globals, name) {
            Some(con) => {
                let fields = fields_at(self.unifier.globals, con);
                counted(fields.len(), count, span, Test::Arities)
            }
            None => Ok(()),
        }
    }

    /// Each constructor in a pattern has as many patterns as it has fields.
    #[cycle(full)]
    fn full(&self, pattern: &Pattern) -> Result<(), ElabError>
        ensures { Answers self.now
            (is_full (entries self.now.unifier.globals.now) (shape_of pattern.now)) (λ u. u)
            result }
    {
        match pattern {
            Pattern::Constructor {
                head,
                arguments,
                span,
                ..
            } => {
                self.has_count(head, arguments.len(), *span)?;
                self.patterns_full(arguments)
            }
            Pattern::Variable { .. } | Pattern::Wildcard { .. } | Pattern::Dot { .. } => Ok(()),
        }
    }

    #[cycle(full)]
    fn patterns_full(&self, patterns: &[Pattern]) -> Result<(), ElabError>
        ensures { Answers self.now
            (patterns_full (entries self.now.unifier.globals.now) (map shape_of patterns.now))
            (λ u. u) result }
    {
        for pattern in patterns {
            self.full(pattern)?;
        }
        Ok(())
    }

    /// Each constructor in a clause has as many patterns as it has fields.
    pub fn clauses_full(&self) -> Result<(), ElabError>
        ensures { Answers self.now
            (clauses_full (group_of self.now).globals (group_of self.now).clauses) (λ u. u)
            result }
    {
        for clause in self.clauses {
            self.patterns_full(&clause.patterns)?;
        }
        Ok(())
    }
}
