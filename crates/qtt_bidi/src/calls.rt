//! The calls that elaborate an expression.

ghost use Rattle.qtt_syntax.specs.View.{tree_of};
ghost use Rattle.qtt_term.specs.Contexts.{part};
ghost use Rattle.qtt_term.specs.Entries.{entries};
ghost use Rattle.qtt_term.specs.Scope.{scope_of};
ghost use Rattle.qtt_term.specs.View.{term};
ghost use Rattle.qtt_rules.specs.Judged.Mode.{synth as finding, check as checking};
ghost use Rattle.qtt_bidi.specs.Elaborated.{Elaborated, found_as, checked_as};

use crate::judged::{Checked1, Mode, Synth};
use crate::premises::Elaborator;
use crate::scope::Scope;
use qtt_rules::ElabError;
use qtt_syntax::Expr;
use qtt_term::{Converter, Ctx, Globals, Sigma, Term};
use std::alloc::Global;

/// The type of an expression, its core, and the uses of the context's variables, in a part. Each
/// question of heads or of comparisons has `budget` contractions. The refusal is that of the
/// first premise that is false or of the first question that is spent, in the order of the
/// rules. A form that no read text has is answered as want of memory.
pub fn synth<C: Converter>(
    alloc: Global,
    converter: &C,
    budget: u64,
    globals: &Globals,
    context: &Ctx,
    sigma: Sigma,
    e: &Expr,
) -> Result<Synth, ElabError>
    ensures { Elaborated (entries globals.now) budget (part sigma) (scope_of context.now) finding
        (tree_of e.now) found_as result }
{
    let elaborator = Elaborator {
        alloc,
        converter,
        budget,
        globals,
    };
    let found = elaborator.judge(&Scope::Outer(context), sigma, Mode::Synth, e)?;
    Ok(Synth {
        ty: found.ty,
        core: found.core,
        usage: found.uses,
    })
}

/// The core of an expression of this type, and the uses of the context's variables, in a part,
/// as `synth` gives them.
pub fn check<C: Converter>(
    alloc: Global,
    converter: &C,
    budget: u64,
    globals: &Globals,
    context: &Ctx,
    sigma: Sigma,
    e: &Expr,
    ty: &Term,
) -> Result<Checked1, ElabError>
    ensures { Elaborated (entries globals.now) budget (part sigma) (scope_of context.now)
        (checking (term ty.now)) (tree_of e.now) (checked_as (term ty.now)) result }
{
    let elaborator = Elaborator {
        alloc,
        converter,
        budget,
        globals,
    };
    let mode = Mode::Check(ty.copy(alloc)?);
    let found = elaborator.judge(&Scope::Outer(context), sigma, mode, e)?;
    Ok(Checked1 {
        core: found.core,
        usage: found.uses,
    })
}
