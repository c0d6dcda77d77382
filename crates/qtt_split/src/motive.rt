//! The motive of a split.

ghost use Rattle.std.specs.Prelude.{◌≡◌, IfOk, map};
ghost use Rattle.qtt_term.specs.Substitution.{sub};
ghost use Rattle.qtt_term.specs.Telescopes.{tele};
ghost use Rattle.qtt_term.specs.Term.{var};
ghost use Rattle.qtt_term.specs.View.{term};
ghost use Rattle.qtt_unify.specs.View.{all_terms, binders as context_of};
ghost use Rattle.qtt_split.specs.Branch.{put};
ghost use Rattle.qtt_split.specs.Motive.{is_form as has_form, some_form as has_some_form, pis, reverted_goal as goal_reverted, motive as motive_of, deletion_motive as motive_of_deletion};
ghost use Rattle.qtt_split.specs.Ways.{aim_of, frame_of, step_of, way_of, wrapped as all_around, Leads};

use crate::frames::{Aim, Frame, case_in};
use crate::rebinding::bound_again;
use crate::steps::{Step, all_steps};
use crate::substitution::Substitution;
use crate::ways::Way;
use qtt_term::telescopes::number;
use qtt_term::{Term, TermError};
use qtt_usage::mult::Mult;
use std::alloc::Global;

fn is_form(target: &Term) -> bool
    ensures { result ≡ has_form (term target.now) }
{
    match target {
        Term::Con(_, _, _) => true,
        _ => false,
    }
}

/// Whether some index is a constructor form.
pub fn some_form(targets: &[Term]) -> bool
    ensures { result ≡ has_some_form (all_terms targets.now) }
{
    for target in targets {
        if is_form(target) {
            return true;
        }
    }
    false
}

/// The type of functions of these binders, the outermost first.
fn function_type(alloc: Global, binders: &[(Mult, Term)], inner: Term) -> Result<Term, TermError>
    ensures { IfOk result (λ t. term t ≡ pis (tele binders.now) (term inner)) }
{
    let mut ty = inner;
    for place in (0..binders.len()).rev() {
        let (mult, domain) = &binders[place];
        ty = Term::pi(alloc, *mult, domain.copy(alloc)?, ty)?;
    }
    Ok(ty)
}

/// The goal under the binders of the reverted variables.
pub fn reverted_goal(
    alloc: Global,
    context: &[(Mult, Term)],
    reverted: &[(Mult, u32)],
    goal: &Term,
) -> Result<Term, TermError>
    ensures { IfOk result
        (λ t. term t ≡ goal_reverted (context_of context.now) reverted.now (term goal.now)) }
{
    let itself = Substitution::raising(alloc, 0);
    let rebound = bound_again(alloc, context, reverted, itself)?;
    let inner = rebound.stands.apply(alloc, goal)?;
    function_type(alloc, &rebound.again, inner)
}

/// The constructors on the way through targets, the outermost first, and the way behind them all.
#[derive(Drop)]
struct Passed<'t> {
    frames: Vec<Frame<'t>>,
    way: Way,
}

/// The way from here through these targets.
fn through<'t>(
    alloc: Global,
    aim: &Aim<'_>,
    steps: &[Step<'t>],
    begun: Way,
) -> Result<Passed<'t>, TermError>
    ensures { IfOk result
        (λ f. Leads (aim_of aim.now) (map step_of steps.now) (way_of begun)
        (map frame_of f.frames.items) (way_of f.way)) }
{
    let mut frames = Vec::new(alloc);
    let mut way = begun;
    for step in steps {
        match step {
            Step::Variable(variable) => way.pass(alloc, *variable)?,
            Step::Constructor(con, params) => {
                let frame = Frame {
                    con: *con,
                    params: *params,
                    way,
                };
                way = frame.inside(alloc, aim.globals)?;
                frames.push(frame)?;
            }
        }
    }
    Ok(Passed { frames, way })
}

/// Cases on constructors, one in the other, around this term.
fn wrapped(
    alloc: Global,
    aim: &Aim<'_>,
    frames: &[Frame<'_>],
    inner: Term,
) -> Result<Term, TermError>
    ensures { IfOk result
        (λ t. term t ≡ all_around (aim_of aim.now) (map frame_of frames.now) (term inner)) }
{
    let mut around = inner;
    for place in (0..frames.len()).rev() {
        around = case_in(alloc, aim, &frames[place], &around)?;
    }
    Ok(around)
}

/// The goal behind the way through all targets, where the split variable is the scrutinee.
fn goal_behind(alloc: Global, way: Way, variable: u32, goal: &Term) -> Result<Term, TermError>
    ensures { IfOk result
        (λ t. term t ≡ sub (put variable (var (way_of way).scrutinee) (way_of way).stands)
        (term goal.now)) }
{
    let mut stands = way.stands;
    stands.put(variable, Term::Var(way.scrutinee))?;
    stands.apply(alloc, goal)
}

/// The motive's body, under the indices and the scrutinee, for a goal under the binders of the
/// reverted variables. It takes the goal in once, and for each constructor in a target the branches
/// of its family.
pub fn motive(
    alloc: Global,
    aim: &Aim<'_>,
    targets: &[Term],
    variable: u32,
    goal: &Term,
) -> Result<Term, TermError>
    ensures { IfOk result
        (λ t. term t ≡ motive_of (aim_of aim.now) (all_terms targets.now) variable
        (term goal.now)) }
{
    let steps = all_steps(alloc, targets)?;
    let begun = Way::begun(alloc, number(targets.len())?)?;
    let passed = through(alloc, aim, &steps, begun)?;
    let inner = goal_behind(alloc, passed.way, variable, goal)?;
    wrapped(alloc, aim, &passed.frames, inner)
}

/// The motive's body of a deletion, under the proof.
pub fn deletion_motive(alloc: Global, variable: u32, goal: &Term) -> Result<Term, TermError>
    ensures { IfOk result (λ t. term t ≡ motive_of_deletion variable (term goal.now)) }
{
    let mut stands = Substitution::raising(alloc, 1);
    stands.put(variable, Term::Var(0))?;
    stands.apply(alloc, goal)
}
