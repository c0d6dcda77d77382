//! The call that goes the way to a hole.

ghost use Rattle.std.specs.Prelude.{map, reverse};
ghost use Rattle.qtt_syntax.specs.View.{tree_of};
ghost use Rattle.qtt_term.specs.Contexts.{part};
ghost use Rattle.qtt_term.specs.Entries.{entries};
ghost use Rattle.qtt_term.specs.Scope.{scope_of};
ghost use Rattle.qtt_term.specs.View.{term};
ghost use Rattle.qtt_holes.specs.Answered.{FindsHole};
ghost use Rattle.qtt_holes.specs.View.{report_of};

use crate::hole::Hole;
use crate::reports::Report;
use crate::sight::Names;
use crate::walker::Walker;
use qtt_base::Name;
use qtt_bidi::{Elaborator, Scope};
use qtt_rules::ElabError;
use qtt_syntax::Expr;
use qtt_term::{Converter, Ctx, Globals, Sigma, Term};
use std::alloc::Global;

/// The hole in tail position of an expression of this type: its goal, the names in sight and what
/// is left of them, in a part. `names` are those of the context's local names, in its order;
/// `reports` are its pattern variables, in the order in which the first of them that is used too
/// often is told. Each question of heads or of comparisons has `budget` contractions. The refusal
/// is that of the first premise that is false or of the first question that is spent, in the order
/// of the rules. A form that has no hole in tail position is answered as want of memory.
pub fn walk<C: Converter>(
    alloc: Global,
    converter: &C,
    budget: u64,
    globals: &Globals,
    context: &Ctx,
    names: &[Name],
    reports: &[Report],
    sigma: Sigma,
    e: &Expr,
    ty: &Term,
) -> Result<Hole, ElabError>
    ensures { FindsHole (entries globals.now) budget (part sigma) (scope_of context.now)
        (reverse names.now) (map report_of reports.now) (tree_of e.now) (term ty.now) result }
{
    let elaborator = Elaborator {
        alloc,
        converter,
        budget,
        globals,
    };
    let walker = Walker { elaborator, sigma };
    let scope = Scope::Outer(context);
    let goal = ty.copy(alloc)?;
    let found = walker.way(&scope, &Names::Outer(names), e, goal)?;
    walker.uses_pass(&scope, &found.uses, reports)?;
    Ok(walker.hole(&scope, found))
}
