//! Expressions.

ghost use Rattle.std.specs.Prelude.{◌≡◌, ◌<◌, IfOk};
ghost use Rattle.qtt_base.specs.declared.place.Span.{Span};
ghost use Rattle.qtt_syntax.specs.View.{tree_of, binder_of};
ghost use Rattle.qtt_grammar.specs.Grammar.{pi_of};
ghost use Rattle.qtt_grammar.specs.Readers.{hole_at, pi_at, other_expr_at, expr_at, levels_at};
ghost use Rattle.qtt_grammar.specs.View.{Answers, inside, MayReadBelow, ReadsBelow};

use crate::application::arrow;
use crate::binder::{lambda, typed};
use crate::block::letting;
use crate::class::Class;
use crate::level::Level;
use crate::lines::doing;
use crate::stop::{Reason, Stop};
use crate::token::{Reading, Rest, begins, begins_binder, opener};
use qtt_base::MemoryError;
use qtt_syntax::{Binder, Expr, Mark};
use std::alloc::Global;

// A hole, in tail position.
#[tactic(auto, unfolding(crate::specs::Readers::hole_at))]
fn hole<'a>(level: Level, tail: bool, ahead: Rest<'a>) -> Reading<'a, Expr>
    ensures { Answers tree_of result (inside hole_at level.pass level.left tail ahead.now) }
{
    match ahead {
        [first, rest @ ..] if tail && Class::Hole.same(first.class) => Ok((
            Expr::Hole {
                name: first.name.copy()?,
                span: first.place,
            },
            rest,
        )),
        _ => Err(Stop::Bad(Reason::Unexpected, ahead)),
    }
}

// The function type from a binder, or the codomain alone where the binder has no type.
fn pi_type(alloc: Global, binder: Binder, codomain: Expr) -> Result<Expr, MemoryError>
    ensures { IfOk result (λ t. (s : Span) →
        tree_of t ≡ pi_of (binder_of binder, (s, tree_of codomain))) }
{
    match binder {
        Binder::Plain(_) => Ok(codomain),
        Binder::Typed {
            mult,
            name,
            ty,
            span,
        } => Ok(Expr::Pi {
            mark: Mark::Written,
            mult,
            name: name.name,
            domain: Box::new(alloc, ty)?,
            codomain: Box::new(alloc, codomain)?,
            span,
        }),
    }
}

// A function type whose domain is bound.
#[tactic(auto, using(crate::proofs::Below::below_is), unfolding(crate::specs::Readers::pi_at))]
fn pi<'a, E: Fn(u32, bool, Rest<'a>) -> Reading<'a, Expr>>(
    level: Level,
    read: &E,
    ahead: Rest<'a>,
) -> Reading<'a, Expr>
    requires callable { MayReadBelow level.left (E.pre read.now) }
    requires reads { ReadsBelow level.pass level.left (E.post read.now) }
    ensures { Answers tree_of result (inside pi_at level.pass level.left ahead.now) }
{
    let (binder, rest) = typed(level, read, ahead)?;
    let (_, rest) = opener(Class::Arrow, level.left, rest)?;
    let (codomain, rest) = read(level.left - 1, false, rest)?;
    Ok((pi_type(level.alloc, binder, codomain)?, rest))
}

#[tactic(auto, unfolding(crate::specs::Readers::expr_at, crate::specs::Readers::other_expr_at))]
fn form<'a, E: Fn(u32, bool, Rest<'a>) -> Reading<'a, Expr>>(
    level: Level,
    read: &E,
    tail: bool,
    ahead: Rest<'a>,
) -> Reading<'a, Expr>
    requires callable { MayReadBelow level.left (E.pre read.now) }
    requires reads { ReadsBelow level.pass level.left (E.post read.now) }
    ensures { Answers tree_of result (inside expr_at level.pass level.left tail ahead.now) }
{
    if begins(Class::Let, ahead) {
        letting(level, read, tail, ahead)
    } else if begins(Class::Hole, ahead) {
        hole(level, tail, ahead)
    } else if begins(Class::Backslash, ahead) {
        lambda(level, read, tail, ahead)
    } else if begins(Class::Do, ahead) {
        doing(level, read, tail, ahead)
    } else if begins_binder(ahead) {
        pi(level, read, ahead)
    } else {
        arrow(level, read, ahead)
    }
}

/// An expression of a level; `tail` says that it stands in tail position, where a hole may
/// stand.
#[cycle(expr)]
#[tactic(auto, using(crate::proofs::Below::level_is))]
pub fn expr<'a>(level: Level, tail: bool, ahead: Rest<'a>) -> Reading<'a, Expr>
    ensures { Answers tree_of result ((levels_at level.pass level.left).expr tail ahead.now) }
{
    let read = |left, tail, rest|
        requires { left < level.left }
        ensures { Answers tree_of result ((levels_at level.pass left).expr tail rest.now) }
    { expr(level.at(left), tail, rest) };
    form(level, &read, tail, ahead)
}
