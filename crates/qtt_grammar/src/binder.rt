//! Binders.

ghost use Rattle.std.specs.Prelude.{◌<◌, map};
ghost use Rattle.qtt_phrase.specs.Reading.{many_at, making_at, then_at};
ghost use Rattle.qtt_syntax.specs.View.{tree_of, binder_of};
ghost use Rattle.qtt_grammar.specs.Classes.{starts_binder};
ghost use Rattle.qtt_grammar.specs.Grammar.{of};
ghost use Rattle.qtt_grammar.specs.Readers.{typed_at, binder_at, lambda_at};
ghost use Rattle.qtt_grammar.specs.View.{Answers, below, inside, with_front, both, MayReadBelow, ReadsBelow};

use crate::class::Class;
use crate::level::{Level, inner};
use crate::token::{Reading, Rest, begins_binders, bound_name, mark, opener, symbol};
use qtt_syntax::{Binder, Expr};

/// A binder in brackets.
#[tactic(auto, using(crate::proofs::Below::below_is), unfolding(crate::specs::Readers::typed_at))]
pub fn typed<'a, E: Fn(u32, bool, Rest<'a>) -> Reading<'a, Expr>>(
    level: Level,
    read: &E,
    ahead: Rest<'a>,
) -> Reading<'a, Binder>
    requires callable { MayReadBelow level.left (E.pre read.now) }
    requires reads { ReadsBelow level.pass level.left (E.post read.now) }
    ensures { Answers binder_of result (inside typed_at level.pass level.left ahead.now) }
{
    let (span, rest) = opener(Class::LeftParen, level.left, ahead)?;
    let (mult, rest) = mark(rest);
    let (name, rest) = bound_name(rest)?;
    let (_, rest) = symbol(Class::Colon, rest)?;
    let (ty, rest) = read(level.left - 1, false, rest)?;
    let (_, rest) = symbol(Class::RightParen, rest)?;
    Ok((
        Binder::Typed {
            mult,
            name,
            ty,
            span,
        },
        rest,
    ))
}

/// A binder of a `\`.
#[tactic(auto, unfolding(crate::specs::Readers::binder_at))]
pub fn binder<'a, E: Fn(u32, bool, Rest<'a>) -> Reading<'a, Expr>>(
    level: Level,
    read: &E,
    ahead: Rest<'a>,
) -> Reading<'a, Binder>
    requires callable { MayReadBelow level.left (E.pre read.now) }
    requires reads { ReadsBelow level.pass level.left (E.post read.now) }
    ensures { Answers binder_of result (inside binder_at level.pass level.left ahead.now) }
{
    match ahead {
        [first, ..] if first.class.is_bname() => {
            let (name, rest) = bound_name(ahead)?;
            Ok((Binder::Plain(name), rest))
        }
        _ => typed(level, read, ahead),
    }
}

/// Any number of binders of a `\`, behind those found so far.
pub fn more_binders<'a, E: Fn(u32, bool, Rest<'a>) -> Reading<'a, Expr>>(
    level: Level,
    read: &E,
    mut found: Vec<Binder>,
    ahead: Rest<'a>,
) -> Reading<'a, Vec<Binder>>
    requires callable { MayReadBelow level.left (E.pre read.now) }
    requires reads { ReadsBelow level.pass level.left (E.post read.now) }
    ensures { Answers (λ v. map binder_of v.items) result
        (with_front (map binder_of found.items)
        (many_at (of starts_binder) (inside binder_at level.pass level.left) ahead.now)) }
{
    let mut rest = ahead;
    'binders: for _ in 0..ahead.len() {
        if !begins_binders(rest) {
            return Ok((found, rest));
        }
        let (one, after) = binder(level, read, rest)?;
        found.push(one)?;
        rest = after;
    }
    Ok((found, rest))
}

/// The binders of a `\`.
#[tactic(auto)]
pub fn some_binders<'a, E: Fn(u32, bool, Rest<'a>) -> Reading<'a, Expr>>(
    level: Level,
    read: &E,
    ahead: Rest<'a>,
) -> Reading<'a, Vec<Binder>>
    requires callable { MayReadBelow level.left (E.pre read.now) }
    requires reads { ReadsBelow level.pass level.left (E.post read.now) }
    ensures { Answers (λ v. map binder_of v.items) result
        (making_at both (then_at (inside binder_at level.pass level.left)
        (many_at (of starts_binder) (inside binder_at level.pass level.left))) ahead.now) }
{
    let (first, rest) = binder(level, read, ahead)?;
    let mut found = Vec::new(level.alloc);
    found.push(first)?;
    more_binders(level, read, found, rest)
}

// The binders of the level inside: their brackets open while the `\` is open.
fn inner_binders<'a, E: Fn(u32, bool, Rest<'a>) -> Reading<'a, Expr>>(
    level: Level,
    read: &E,
    ahead: Rest<'a>,
) -> Reading<'a, Vec<Binder>>
    requires may { 0 < level.left }
    requires callable { MayReadBelow level.left (E.pre read.now) }
    requires reads { ReadsBelow level.pass level.left (E.post read.now) }
    ensures { Answers (λ v. map binder_of v.items) result
        (making_at both (then_at (below level.pass level.left).binder
        (many_at (of starts_binder) (below level.pass level.left).binder)) ahead.now) }
{
    some_binders(level.below(), read, ahead)
}

/// `\ binders => body`
#[tactic(auto, unfolding(crate::specs::Readers::lambda_at))]
pub fn lambda<'a, E: Fn(u32, bool, Rest<'a>) -> Reading<'a, Expr>>(
    level: Level,
    read: &E,
    tail: bool,
    ahead: Rest<'a>,
) -> Reading<'a, Expr>
    requires callable { MayReadBelow level.left (E.pre read.now) }
    requires reads { ReadsBelow level.pass level.left (E.post read.now) }
    ensures { Answers tree_of result (inside lambda_at level.pass level.left tail ahead.now) }
{
    let (span, rest) = opener(Class::Backslash, level.left, ahead)?;
    let (binders, rest) = inner_binders(level, read, rest)?;
    let (_, rest) = symbol(Class::FatArrow, rest)?;
    let (body, rest) = inner(level, read, tail, rest)?;
    Ok((
        Expr::Lambda {
            binders,
            body: Box::new(level.alloc, body)?,
            span,
        },
        rest,
    ))
}
