//! A definition by clauses: its tree, what each clause gives at each of its leaves, and its body
//! or its holes.

ghost use Rattle.qtt_term.specs.View.{term};
ghost use Rattle.qtt_term.specs.declared.rule.Rule.TheVariants as rule;
ghost use Rattle.qtt_rules.specs.Asks.{alike as alike_asks};
ghost use Rattle.qtt_rules.specs.Refusal.{at};
ghost use Rattle.qtt_split.specs.Group.{tree_of as tree_asks};
ghost use Rattle.qtt_split.specs.Planned.{planned_of};
ghost use Rattle.qtt_module.specs.Sides.{group_of as group_asks};
ghost use Rattle.qtt_module.specs.GroupCalls.{Answers, defined_of, given_of};

use crate::bodies::body;
use crate::sides::Sides;
use crate::tree_leaves::leaves_in;
use qtt_base::{Name, Span};
use qtt_bidi::Elaborator;
use qtt_holes::Hole;
use qtt_rules::ElabError;
use qtt_split::{Planned, plan};
use qtt_syntax::Clause;
use qtt_term::{Answer, Converter, Question, Rule, Sigma, Term};

/// A definition by clauses, in a part: its name, its closed type, and the names of its written
/// binders.
#[derive(Drop)]
pub struct Group<'a, C> {
    pub elaborator: Elaborator<'a, C>,
    pub sigma: Sigma,
    pub clauses: &'a [Clause],
    pub name: &'a Name,
    pub ty: &'a Term,
    pub labels: &'a [Name],
    pub may_miss: bool,
}

/// What a group gives: a body, or, where a clause has a hole, its holes, each once.
#[derive(Drop)]
pub enum Given {
    Body(Term),
    Holes(Vec<Hole>),
}

impl<'a, C: Converter> Group<'a, C> {
    /// Whether two terms compare Equal, which stand under so many variables.
    #[tactic(auto, unfolding(qtt_term::specs::Ask::within, qtt_term::specs::Ask::on_answer))]
    pub fn alike(
        &self,
        depth: u32,
        one: &Term,
        other: &Term,
        span: Span,
        number: u8,
    ) -> Result<bool, ElabError>
        ensures { Answers self.now
            (alike_asks (at span rule.Clauses number) depth (term one.now) (term other.now))
            (λ b. b) result }
    {
        let elaborator = &self.elaborator;
        let alloc = elaborator.alloc;
        match elaborator
            .converter
            .compare(alloc, elaborator.budget, elaborator.globals, one, other)?
        {
            Answer::Equal => Ok(true),
            Answer::Different(_) => Ok(false),
            Answer::Spent => {
                let question = Question::Compare(depth, one.copy(alloc)?, other.copy(alloc)?);
                Err(elaborator.spent(question, span, Rule::Clauses, number))
            }
        }
    }

    /// The tree: it covers all values, or the definition may miss some, and each clause is
    /// reached.
    fn tree(&self) -> Result<Planned, ElabError>
        ensures { Answers self.now (tree_asks (defined_of self.now)) planned_of result }
    {
        let elaborator = &self.elaborator;
        let planned = plan(
            elaborator.alloc,
            elaborator.converter,
            elaborator.budget,
            elaborator.globals,
            self.sigma,
            self.clauses,
            self.ty,
            self.labels,
        )?;
        self.covers(&planned.tree)?;
        self.reaches(&leaves_in(&planned.tree, Vec::new(elaborator.alloc))?)?;
        Ok(planned)
    }

    /// The body, or the holes.
    pub fn given(&self) -> Result<Given, ElabError>
        ensures { Answers self.now (group_asks (defined_of self.now)) given_of result }
    {
        let planned = self.tree()?;
        let leaves = leaves_in(&planned.tree, Vec::new(self.elaborator.alloc))?;
        let Sides { cores, holes } = self.all_sides(&leaves)?;
        if !holes.is_empty() {
            return Ok(Given::Holes(holes));
        }
        let body = body(self.elaborator.alloc, &planned, &leaves, &cores)?;
        self.body_holds(&body)?;
        Ok(Given::Body(body))
    }
}
