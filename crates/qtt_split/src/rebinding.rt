//! Variables that are bound again behind a node's own.

ghost use Rattle.std.specs.Prelude.{◌≡◌, ℕ, IfOk};
ghost use Rattle.qtt_term.specs.Telescopes.{tele};
ghost use Rattle.qtt_unify.specs.View.{binders};
ghost use Rattle.qtt_split.specs.Branch.{again as binders_again, bound_again as stands_again};
ghost use Rattle.qtt_split.specs.Substitution.{stands_for};

use crate::context::type_at;
use crate::substitution::Substitution;
use qtt_term::{Term, TermError};
use qtt_usage::mult::Mult;
use std::alloc::Global;

/// The new binders, and what stands for the node's variables under them.
#[derive(Debug, Drop)]
pub struct Rebound {
    pub again: Vec<(Mult, Term)>,
    pub stands: Substitution,
}

/// Variables of a context, bound again where this stands for the context's variables.
pub fn bound_again(
    alloc: Global,
    context: &[(Mult, Term)],
    reverted: &[(Mult, u32)],
    stands: Substitution,
) -> Result<Rebound, TermError>
    ensures again { IfOk result
        (λ r. tele r.again.items ≡ binders_again (binders context.now) reverted.now
        (stands_for stands)) }
    ensures stands { IfOk result
        (λ r. (i : ℕ) → stands_for r.stands i ≡ stands_again reverted.now (stands_for stands) i) }
{
    let mut stands = stands;
    let mut again = Vec::with_capacity(alloc, reverted.len())?;
    for (mult, variable) in reverted {
        let ty = type_at(alloc, context, *variable)?;
        again.push((*mult, stands.apply(alloc, &ty)?))?;
        stands.rebind(alloc, *variable)?;
    }
    Ok(Rebound { again, stands })
}
