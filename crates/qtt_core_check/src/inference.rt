//! The type and the uses of a term in a context.

ghost use Rattle.qtt_term.specs.View.{term};
ghost use Rattle.qtt_term.specs.Globals.{env};
ghost use Rattle.qtt_term.specs.Contexts.{part, variables};
ghost use Rattle.qtt_core_check.specs.Meaning.{Infers};

use crate::premises::Checker;
use crate::refusal::CoreRefusal;
use crate::scope::Scope;
use qtt_term::{Converter, Ctx, Globals, Sigma, Term};
use qtt_usage::usage::Usage;
use std::alloc::Global;

/// The type of a term, and the uses of the context's variables, the newest first. Each question
/// of heads or of comparisons has `budget` contractions; the first one that these do not answer
/// is the refusal `Spent`, and the first premise that fails is `Fails`. What fails is not
/// accepted, whatever the term is: no derivation in which dead terms use nothing gives it a
/// type. The names of the context that stand for terms are not looked at: a core term has
/// variables alone.
pub fn infer<C: Converter>(
    alloc: Global,
    converter: &C,
    budget: u64,
    globals: &Globals,
    context: &Ctx,
    sigma: Sigma,
    t: &Term,
) -> Result<(Term, Usage), CoreRefusal>
    ensures { Infers (env globals.now) budget (part sigma) (variables context.now)
        (term t.now) result }
{
    let outer = Scope::Empty;
    let scope = Scope::Several(&outer, &context.vars);
    let checker = Checker {
        alloc,
        converter,
        budget,
        globals,
    };
    let found = checker.judge(&scope, sigma, t)?;
    Ok((found.ty, found.uses))
}
