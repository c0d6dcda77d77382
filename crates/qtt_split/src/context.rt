//! Variables of a node's context, which stand the outermost first.

ghost use Rattle.std.specs.Prelude.{◌≡◌, IfOk};
ghost use Rattle.qtt_term.specs.Judgement.{mult_at as mult_of, type_at as type_of};
ghost use Rattle.qtt_term.specs.View.{term};
ghost use Rattle.qtt_unify.specs.View.{binders};

use qtt_term::telescopes::number;
use qtt_term::{Term, TermError};
use qtt_usage::mult::Mult;
use std::alloc::Global;

/// How often a variable may be used.
pub fn mult_at(context: &[(Mult, Term)], variable: u32) -> Mult
    ensures { result ≡ mult_of (binders context.now) variable }
{
    let place = variable as usize;
    if place < context.len() {
        context[context.len() - 1 - place].0
    } else {
        Mult::Zero
    }
}

/// The type of a variable, in the whole context.
pub fn type_at(alloc: Global, context: &[(Mult, Term)], variable: u32) -> Result<Term, TermError>
    ensures { IfOk result (λ t. term t ≡ type_of (binders context.now) variable) }
{
    let place = variable as usize;
    if place < context.len() {
        let ty = &context[context.len() - 1 - place].1;
        ty.shift(alloc, 0, number(place + 1)?)
    } else {
        Ok(Term::Var(variable))
    }
}
