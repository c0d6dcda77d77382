//! Constructors of the fields that they bind.

ghost use Rattle.std.specs.Prelude.{◌≡◌, ◌<◌, IfOk};
ghost use Rattle.qtt_term.specs.Substitution.{above as above_newest};
ghost use Rattle.qtt_term.specs.View.{term};
ghost use Rattle.qtt_unify.specs.View.{all_terms};
ghost use Rattle.qtt_split.specs.Branch.{raised as raised_terms, made as made_of};

use crate::substitution::sum;
use qtt_term::{ConId, Term, TermError};
use std::alloc::Global;

/// Terms under so many binders more.
pub fn raised(alloc: Global, by: u32, sources: &[Term]) -> Result<Vec<Term>, TermError>
    ensures { IfOk result (λ v. all_terms v.items ≡ raised_terms by (all_terms sources.now)) }
{
    let mut terms = Vec::with_capacity(alloc, sources.len())?;
    for source in sources {
        terms.push(source.shift(alloc, 0, by)?)?;
    }
    Ok(terms)
}

/// So many variables above the newest ones, the outermost first.
pub fn above(alloc: Global, newest: u32, count: u32) -> Result<Vec<Term>, TermError>
    ensures { IfOk result (λ v. all_terms v.items ≡ above_newest newest count) }
{
    let mut variables = Vec::new(alloc);
    for place in (0..count).rev() {
        variables.push(Term::Var(sum(newest, place)?))?;
    }
    Ok(variables)
}

/// A constructor with these parameters, under so many fields, which are its own.
pub fn made(alloc: Global, con: ConId, params: &[Term], fields: u32) -> Result<Term, TermError>
    ensures { IfOk result (λ t. term t ≡ made_of con (all_terms params.now) fields) }
{
    let params = raised(alloc, fields, params)?;
    Ok(Term::Con(con, params, above(alloc, 0, fields)?))
}
