//! The targets of a split, and which of their variables an equation may solve.

ghost use Rattle.std.specs.Prelude.{◌≡◌, ◌<◌, IfOk};
ghost use Rattle.qtt_term.specs.Globals.{env as env_of};
ghost use Rattle.qtt_term.specs.Judgement.{mult_at};
ghost use Rattle.qtt_term.specs.View.{term, terms, side_by_side};
ghost use Rattle.qtt_unify.specs.Targets.{is_linear as linear, is_free as free, solvable as solvable_at, all_solvable};
ghost use Rattle.qtt_unify.specs.View.{scrutinee as scrutinee_of, binders};

use crate::occurrences::occurrences_in;
use crate::plain::is_plain;
use qtt_base::MemoryError;
use qtt_term::{Globals, Term};
use qtt_usage::mult::Mult;

/// What is split: a variable of a context, whose variables stand the outermost first; the
/// parameters and the indices of its type's family; and the indices as they were read.
#[derive(Drop)]
pub struct Scrutinee<'a> {
    pub context: &'a [(Mult, Term)],
    pub variable: u32,
    pub params: &'a [Term],
    pub indices: &'a [Term],
    pub targets: &'a [Term],
}

/// How often a variable may be used.
fn mult_at(context: &[(Mult, Term)], index: u32) -> Mult
    ensures { result ≡ mult_at (binders context.now) index }
{
    let place = index as usize;
    if place < context.len() {
        context[context.len() - 1 - place].0
    } else {
        Mult::Zero
    }
}

fn is_linear(mult: Mult) -> bool
    ensures { result ≡ linear mult }
{
    match mult {
        Mult::One => true,
        _ => false,
    }
}

impl Scrutinee<'_> {
    /// Whether an equation may solve a variable: it occurs once in all targets, is not linear, is
    /// not the one that is split, and occurs in no parameter.
    fn is_free(&self, index: u32) -> Result<bool, MemoryError>
        ensures { IfOk result (λ b. b ≡ free (scrutinee_of self.now) index) }
    {
        if !occurrences_in(self.targets, u64::from(index))?.is_once() {
            return Ok(false);
        }
        if is_linear(mult_at(self.context, index)) {
            return Ok(false);
        }
        if index == self.variable {
            return Ok(false);
        }
        Ok(occurrences_in(self.params, u64::from(index))?.is_never())
    }
}

/// Whether a target is built of free variables and of constructors of plain families.
#[cycle(solvable)]
pub fn is_solvable(
    target: &Term,
    scrutinee: &Scrutinee<'_>,
    env: &Globals,
) -> Result<bool, MemoryError>
    ensures { IfOk result
        (λ b. b ≡ solvable_at (env_of env.now) (scrutinee_of scrutinee.now) (term target.now)) }
{
    match target {
        Term::Var(index) => scrutinee.is_free(*index),
        Term::Con(con, _, fields) => {
            if is_plain(env, con.family)? {
                are_solvable(fields, scrutinee, env)
            } else {
                Ok(false)
            }
        }
        _ => Ok(false),
    }
}

#[cycle(solvable)]
fn are_solvable(
    targets: &[Term],
    scrutinee: &Scrutinee<'_>,
    env: &Globals,
) -> Result<bool, MemoryError>
    ensures { IfOk result
        (λ b. b ≡ all_solvable (env_of env.now) (scrutinee_of scrutinee.now)
        (side_by_side (terms targets.now)) 0) }
{
    for target in targets {
        if !is_solvable(target, scrutinee, env)? {
            return Ok(false);
        }
    }
    Ok(true)
}
