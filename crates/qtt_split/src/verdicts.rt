//! What the constructors of a split come to.

ghost use Rattle.std.specs.Prelude.{◌≡◌, IfOk, map, option_map};
ghost use Rattle.qtt_split.specs.Calls.{Answers};
ghost use Rattle.qtt_split.specs.Divisions.{division_of, stuck_cause, stuck_at_once, verdict_asked};
ghost use Rattle.qtt_split.specs.Split.{results_of as results_at, verdicts as verdicts_at, first_stuck as stuck_first};
ghost use Rattle.qtt_term.specs.Entries.{entries, env};
ghost use Rattle.qtt_term.specs.Items.{constructor as constructor_seen};
ghost use Rattle.qtt_term.specs.Signature.{con_sig, fam_at, family_at};
ghost use Rattle.qtt_term.specs.Substitution.{lifts};
ghost use Rattle.qtt_term.specs.Telescopes.{filled};
ghost use Rattle.qtt_unify.specs.View.{all_terms, binders, verdict as verdict_of};

use crate::constructors::{above, raised};
use crate::division::{Division, param_count};
use crate::node::Node;
use crate::planner::Planner;
use qtt_base::GlobalId;
use qtt_rules::ElabError;
use qtt_term::copying::copy_all;
use qtt_term::telescopes::{joined, number};
use qtt_term::{ConId, Constructor, Converter, Globals, Term, TermError};
use qtt_unify::Verdict;
use std::alloc::Global;

/// The constructors of a family.
pub fn constructors_of(globals: &Globals, family: GlobalId) -> &[Constructor]
    ensures { map (λ d. constructor_seen d) result.now ≡
        (family_at (env (entries globals.now)) family).constructors }
{
    match globals.family(family) {
        Some(found) => &found.constructors,
        None => &[],
    }
}

/// Values for the same variables under so many binders more, which stand for themselves.
fn lifted(alloc: Global, values: &[Term], by: u32) -> Result<Vec<Term>, TermError>
    ensures { IfOk result (λ v. filled v.items ≡ lifts by (filled values.now)) }
{
    joined(raised(alloc, by, values)?, above(alloc, 0, by)?)
}

/// What a constructor's motive is taken at, under the family's parameters and the fields.
fn targets_of(
    alloc: Global,
    con: ConId,
    params: usize,
    constructor: &Constructor,
) -> Result<Vec<Term>, TermError>
    ensures { IfOk result
        (λ v. all_terms v.items ≡
        (con_sig con.family params con.place (constructor_seen constructor.now)).targets) }
{
    let fields = number(constructor.fields.len())?;
    let params = above(alloc, fields, number(params)?)?;
    let own = Term::Con(con, params, above(alloc, 0, fields)?);
    let mut targets = copy_all(alloc, &constructor.result)?;
    targets.push(own)?;
    Ok(targets)
}

/// The result indices of a constructor under its fields, and behind them the constructor itself.
pub fn results_of(
    alloc: Global,
    con: ConId,
    count: usize,
    constructor: &Constructor,
    params: &[Term],
) -> Result<Vec<Term>, TermError>
    ensures { IfOk result
        (λ v. all_terms v.items ≡ results_at (all_terms params.now)
        (con_sig con.family count con.place (constructor_seen constructor.now))) }
{
    let inner = lifted(alloc, params, number(constructor.fields.len())?)?;
    let targets = targets_of(alloc, con, count, constructor)?;
    let mut results = Vec::with_capacity(alloc, targets.len())?;
    for target in &targets {
        results.push(target.fill(alloc, &inner)?)?;
    }
    Ok(results)
}

/// A result index that no equation decides, and what stands beside it, under so many variables.
#[derive(Drop)]
pub struct Stuck<'v> {
    pub depth: u32,
    pub left: &'v Term,
    pub right: &'v Term,
}

/// What is stuck first.
pub fn first_stuck(verdicts: &[Verdict]) -> Option<Stuck<'_>>
    ensures { option_map stuck_cause result ≡ stuck_first (map verdict_of verdicts.now) }
{
    for verdict in verdicts {
        if let Verdict::Stuck(depth, left, right) = verdict {
            let depth = *depth;
            return Some(Stuck { depth, left, right });
        }
    }
    None
}

fn is_stuck(verdict: &Verdict) -> bool
    ensures { result ≡ stuck_at_once (verdict_of verdict.now) }
{
    match verdict {
        Verdict::Stuck(..) => true,
        _ => false,
    }
}

impl<'a, C: Converter> Planner<'a, C> {
    /// What a constructor of a split comes to.
    fn verdict_at(
        &self,
        node: &Node<'_>,
        division: &Division,
        place: u32,
        constructor: &Constructor,
    ) -> Result<Verdict, ElabError>
        ensures { Answers self.now
            (verdict_asked self.now (division_of (binders node.now.context.items) division.now)
            place (constructor_seen constructor.now)) verdict_of result }
    {
        let alloc = self.unifier.alloc;
        let family = division.family;
        let con = ConId { family, place };
        let count = param_count(self.unifier.globals, family);
        let results = results_of(alloc, con, count, constructor, &division.params)?;
        let fields = number(constructor.fields.len())?;
        self.verdict(&division.over(node), fields, &results, division.span)
    }

    /// What the constructors of a split come to, up to the first that is stuck.
    pub fn verdicts(&self, node: &Node<'_>, division: &Division) -> Result<Vec<Verdict>, ElabError>
        ensures { Answers self.now
            (verdicts_at (env (entries self.now.unifier.globals.now))
            (division_of (binders node.now.context.items) division.now)
            (fam_at (env (entries self.now.unifier.globals.now)) division.now.family).constructors)
            (λ v. map verdict_of v.items) result }
    {
        let constructors = constructors_of(self.unifier.globals, division.family);
        let mut verdicts = Vec::with_capacity(self.unifier.alloc, constructors.len())?;
        for (place, constructor) in constructors.iter().enumerate() {
            let verdict = self.verdict_at(node, division, number(place)?, constructor)?;
            let ends = is_stuck(&verdict);
            verdicts.push(verdict)?;
            if ends {
                return Ok(verdicts);
            }
        }
        Ok(verdicts)
    }
}
