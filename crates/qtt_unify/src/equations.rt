//! Equations of targets and result indices, and what they come to for a constructor.

ghost use Rattle.std.specs.Prelude.{◌≡◌, [], ◌∷◌, IfOk, map};
ghost use Rattle.std.specs.List.{list_any};
ghost use Rattle.qtt_term.specs.Globals.{env as env_of};
ghost use Rattle.qtt_term.specs.View.{term};
ghost use Rattle.qtt_unify.specs.Equations.{stuck_at, equation, equations, is_clash, verdict as verdict_of_found, constructor_verdict};
ghost use Rattle.qtt_unify.specs.View.{all_terms, scrutinee as scrutinee_of, found as found_of, verdict as verdict_of, Answers};

use crate::error::UnifyError;
use crate::targets::Scrutinee;
use crate::unifier::{Unifier, deeper, depth_of, same_constructor};
use qtt_base::MemoryError;
use qtt_term::{Converter, Term};
use std::alloc::Global;

/// What one equation comes to: a variable is solved, two constructors are apart, or neither.
#[derive(Debug, Drop)]
pub enum Found {
    Solves(u32, Term),
    Clashes,
    /// The result index and the target.
    Sticks(Term, Term),
}

/// What a constructor's equations come to. What is stuck stands under so many variables.
#[derive(Debug, Drop)]
pub enum Verdict {
    Solved(Vec<(u32, Term)>),
    Clash,
    Stuck(u32, Term, Term),
}

fn alone(alloc: Global, found: Found) -> Result<Vec<Found>, MemoryError>
    ensures { IfOk result (λ v. v.items ≡ found ∷ []) }
{
    Ok(vec![in alloc; found]?)
}

impl<'a, C: Converter> Unifier<'a, C> {
    /// A target's equation is stuck, so many fields deep.
    fn stuck(&self, target: &Term, index: &Term, fields: u32) -> Result<Vec<Found>, UnifyError>
        ensures { Answers self.now (stuck_at fields (term target.now) (term index.now))
            (λ v. map found_of v.items) result }
    {
        let target = target.shift(self.alloc, 0, fields)?;
        Ok(alone(self.alloc, Found::Sticks(index.copy(self.alloc)?, target))?)
    }

    /// What the equation of a target and a result index comes to. The result stands under so many
    /// fields more than the target, which stands under `depth` variables.
    #[cycle(equation)]
    fn equation(
        &self,
        target: &Term,
        index: &Term,
        depth: u32,
        fields: u32,
    ) -> Result<Vec<Found>, UnifyError>
        ensures { Answers self.now (equation tt depth fields (term target.now) (term index.now))
            (λ v. map found_of v.items) result }
    {
        match target {
            Term::Var(variable) => {
                let found = Found::Solves(*variable, index.copy(self.alloc)?);
                Ok(alone(self.alloc, found)?)
            }
            Term::Con(con, _, parts) => {
                let head = self.head(deeper(depth, fields)?, index)?;
                match &head {
                    Term::Con(other, _, others) => {
                        if same_constructor(*con, *other) {
                            self.equations(parts, others, depth, fields)
                        } else {
                            Ok(alone(self.alloc, Found::Clashes)?)
                        }
                    }
                    _ => self.stuck(target, index, fields),
                }
            }
            _ => self.stuck(target, index, fields),
        }
    }

    /// What the equations of targets and result indices come to, left to right.
    #[cycle(equation)]
    fn equations(
        &self,
        targets: &[Term],
        indices: &[Term],
        depth: u32,
        fields: u32,
    ) -> Result<Vec<Found>, UnifyError>
        ensures { Answers self.now
            (equations tt depth fields (all_terms targets.now) (all_terms indices.now) 0)
            (λ v. map found_of v.items) result }
    {
        let mut found = Vec::new(self.alloc);
        for (place, target) in targets.iter().enumerate() {
            if place >= indices.len() {
                return Ok(found);
            }
            let mut more = self.equation(target, &indices[place], depth, fields)?;
            found.append(&mut more)?;
        }
        Ok(found)
    }
}

impl<'a, C: Converter> Unifier<'a, C> {
    /// What a constructor with so many fields and these result indices comes to.
    pub fn verdict(
        &self,
        scrutinee: &Scrutinee<'_>,
        fields: u32,
        results: &[Term],
    ) -> Result<Verdict, UnifyError>
        ensures { Answers self.now
            (constructor_verdict (env_of self.now.globals.now) tt (scrutinee_of scrutinee.now)
            fields (all_terms results.now)) verdict_of result }
    {
        let depth = depth_of(scrutinee.context)?;
        let inner = deeper(depth, fields)?;
        if let Some((found, index)) = self.unsolvable(scrutinee, results)? {
            let index = index.shift(self.alloc, 0, fields)?;
            return Ok(Verdict::Stuck(inner, found.copy(self.alloc)?, index));
        }
        let found = self.equations(scrutinee.targets, results, depth, fields)?;
        Ok(verdict_of_all(self.alloc, inner, found)?)
    }
}

/// Whether one equation clashes.
fn some_clash(found: &[Found]) -> bool
    ensures { result ≡ list_any is_clash (map found_of found.now) }
{
    for it in found {
        match it {
            Found::Clashes => return true,
            _ => {}
        }
    }
    false
}

/// What all equations come to, under so many variables.
fn verdict_of_all(alloc: Global, inner: u32, mut found: Vec<Found>) -> Result<Verdict, MemoryError>
    ensures { IfOk result (λ v. verdict_of v ≡ verdict_of_found inner (map found_of found.items)) }
{
    if some_clash(&found) {
        return Ok(Verdict::Clash);
    }
    found.reverse();
    let mut solutions = Vec::new(alloc);
    while let Some(first) = found.pop() {
        match first {
            Found::Solves(variable, term) => solutions.push((variable, term))?,
            Found::Sticks(index, target) => return Ok(Verdict::Stuck(inner, index, target)),
            Found::Clashes => {}
        }
    }
    Ok(Verdict::Solved(solutions))
}
