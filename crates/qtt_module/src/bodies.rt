//! The body of a definition by clauses.

ghost use Rattle.std.specs.Prelude.{◌≡◌, List, length, map, IfOk};
ghost use Rattle.qtt_term.specs.Telescopes.{tele};
ghost use Rattle.qtt_term.specs.Term.{Terms, ◌+++◌};
ghost use Rattle.qtt_term.specs.View.{term};
ghost use Rattle.qtt_split.specs.Group.{with_number, in_order as ordered_by, body_with, body_holds as holds_asks};
ghost use Rattle.qtt_split.specs.Planned.{planned_of};
ghost use Rattle.qtt_split.specs.Tree.{Leaf as LeafSeen, lams, leaves as leaves_of};
ghost use Rattle.qtt_split.specs.View.{tree_of};
ghost use Rattle.qtt_unify.specs.View.{all_terms};
ghost use Rattle.qtt_module.specs.GroupCalls.{Answers, BodyTold, defined_of, leaf_at, or_before, right_side, typed_asks};

use crate::groups::Group;
use crate::sides::RightSide;
use qtt_base::MemoryError;
use qtt_core_check::{CoreRefusal, infer};
use qtt_rules::{Detail, ElabError};
use qtt_split::{Leaf, Planned, glue};
use qtt_term::{Converter, Ctx, Rule, Term, TermError};
use qtt_usage::mult::Mult;
use std::alloc::Global;

/// The number of the last judgement of a body among the tests of a group of clauses.
const BODY: u8 = 17;

/// The core at a leaf, where one is given.
fn core_at(leaf: usize, cores: &[RightSide]) -> Option<&Term>
    ensures { (ts : Terms) → with_number leaf (map right_side cores.now) ts ≡ or_before result ts }
{
    for side in cores {
        if side.leaf as usize == leaf {
            return Some(&side.core);
        }
    }
    None
}

/// The core at a leaf, where one is given, behind others.
fn with_core(
    alloc: Global,
    before: Vec<Term>,
    leaf: usize,
    cores: &[RightSide],
) -> Result<Vec<Term>, TermError>
    ensures { IfOk result (λ more. (ts : Terms) → all_terms more.items +++ ts ≡
        all_terms before.items +++ with_number leaf (map right_side cores.now) ts) }
{
    let mut terms = before;
    match core_at(leaf, cores) {
        Some(core) => {
            terms.push(core.copy(alloc)?)?;
            Ok(terms)
        }
        None => Ok(terms),
    }
}

/// The cores in tree order, for so many leaves.
fn in_order(alloc: Global, count: usize, cores: &[RightSide]) -> Result<Vec<Term>, TermError>
    ensures { (ls : List LeafSeen) → length ls ≡ count → IfOk result
        (λ v. all_terms v.items ≡ ordered_by 0 ls (map right_side cores.now)) }
{
    let mut ordered = Vec::with_capacity(alloc, count)?;
    for leaf in 0..count {
        ordered = with_core(alloc, ordered, leaf, cores)?;
    }
    Ok(ordered)
}

/// A function of these binders, the outermost first.
fn function(alloc: Global, binders: &[(Mult, Term)], body: Term) -> Result<Term, TermError>
    ensures { IfOk result (λ t. term t ≡ lams (tele binders.now) (term body)) }
{
    let mut function = body;
    for place in (0..binders.len()).rev() {
        let (mult, ty) = &binders[place];
        function = Term::lam(alloc, *mult, ty.copy(alloc)?, function)?;
    }
    Ok(function)
}

/// The term of a plan with these right sides.
pub fn body(
    alloc: Global,
    planned: &Planned,
    leaves: &[&Leaf],
    cores: &[RightSide],
) -> Result<Term, MemoryError>
    ensures { map leaf_at leaves.now ≡ leaves_of (tree_of planned.now.tree) → IfOk result
        (λ t. term t ≡ body_with (planned_of planned.now) (map right_side cores.now)) }
{
    let sides = in_order(alloc, leaves.len(), cores)?;
    Ok(function(alloc, &planned.opened, glue(alloc, &planned.tree, &sides)?)?)
}

impl<'a, C: Converter> Group<'a, C> {
    /// What is told where the core judgement does not accept the body.
    fn body_refused(&self, refusal: CoreRefusal) -> Result<ElabError, MemoryError>
        ensures { IfOk result (λ e. BodyTold (defined_of self.now) self.now.elaborator.budget
            refusal e) }
    {
        let place = self.first();
        match refusal {
            CoreRefusal::Fails(rule, number) => {
                let name = self.name.copy()?;
                let kept = Detail::CoreRefused { name };
                Ok(ElabError::Refused(kept, place, rule, number))
            }
            CoreRefusal::Spent(question) => {
                Ok(self.elaborator.spent(question, place, Rule::Clauses, BODY))
            }
            CoreRefusal::Memory => Ok(ElabError::Memory),
        }
    }

    /// The type of the body compares Equal to the definition's.
    fn has_type(&self, found: &Term) -> Result<(), ElabError>
        ensures { Answers self.now (typed_asks (defined_of self.now) (term found.now)) (λ u. u)
            result }
    {
        if self.alike(0, found, self.ty, self.first(), BODY)? {
            return Ok(());
        }
        Err(self.body_refused(CoreRefusal::Fails(Rule::Conversion, 2))?)
    }

    /// The body, judged once more.
    pub fn body_holds(&self, body: &Term) -> Result<(), ElabError>
        ensures { Answers self.now (holds_asks (defined_of self.now) (term body.now)) (λ u. u)
            result }
    {
        let elaborator = &self.elaborator;
        let alloc = elaborator.alloc;
        let context = Ctx {
            vars: Vec::new(alloc),
            names: Vec::new(alloc),
        };
        match infer(
            alloc,
            elaborator.converter,
            elaborator.budget,
            elaborator.globals,
            &context,
            self.sigma,
            body,
        ) {
            Ok((found, _)) => self.has_type(&found),
            Err(refusal) => Err(self.body_refused(refusal)?),
        }
    }
}
