//! Patterns.

ghost use Rattle.std.specs.Prelude.{◌≡◌, nat_lt, suc, map, None};
ghost use Rattle.qtt_phrase.specs.Reading.{cap_at, counted_at, making_at, token_at};
ghost use Rattle.qtt_syntax.specs.Tree as tree;
ghost use Rattle.qtt_syntax.specs.View.{shape_of};
ghost use Rattle.qtt_grammar.specs.Classes.{starts_pattern, is_constructor, is_pattern_word};
ghost use Rattle.qtt_grammar.specs.Grammar.{of, named_of, bare_of, group_of, pattern_word};
ghost use Rattle.qtt_grammar.specs.Limits.{one_above};
ghost use Rattle.qtt_grammar.specs.Readers.{pattern_starts, bad_pattern_start, one_pattern_at, dot_at, bracketed_at, levels_at};
ghost use Rattle.qtt_grammar.specs.View.{Answers, Fails, inside};

use crate::class::Class;
use crate::count::one_above;
use crate::expr::expr;
use crate::level::Level;
use crate::stop::{Reason, Stop};
use crate::token::{
    Reading, Rest, begins, begins_constructor, begins_pattern, opener, symbol, used_constructor,
};
use qtt_base::{Quantity, Span};
use qtt_syntax::{Mark, Named, Pattern};

// Why no other pattern is read where as many as may be stand before.
fn no_more<'a>(level: Level, ahead: Rest<'a>) -> Stop<'a>
    ensures { Fails {A = tree.Shape} result
        (cap_at (λ x. pattern_starts (nat_lt 0 level.left) x.class)
        (λ x. bad_pattern_start (nat_lt 0 level.left) x.class)
        (λ x. one_above Quantity.Parts x.place) ahead.now) }
{
    match ahead {
        [first, ..] if level.left == 0 && first.class.opens_pattern() => {
            Stop::Bad(Reason::TooDeep, ahead)
        }
        [first, rest @ ..] if first.class.starts_pattern() => {
            Stop::Over(one_above(Quantity::Parts, first.place), rest)
        }
        _ => Stop::Bad(Reason::Unexpected, ahead),
    }
}

// `.(e)`
#[tactic(auto, using(crate::proofs::Below::below_is), unfolding(crate::specs::Readers::dot_at))]
fn dot<'a>(level: Level, ahead: Rest<'a>) -> Reading<'a, Pattern>
    ensures { Answers shape_of result (inside dot_at level.pass level.left ahead.now) }
{
    let (span, rest) = opener(Class::DotParen, level.left, ahead)?;
    let (value, rest) = expr(level.below(), false, rest)?;
    let (_, rest) = symbol(Class::RightParen, rest)?;
    Ok((
        Pattern::Dot {
            mark: Mark::Written,
            value,
            span,
        },
        rest,
    ))
}

// A constructor with the patterns of its fields, in brackets at this place.
fn group(head: Named, arguments: Vec<Pattern>, span: Span) -> Pattern
    ensures { shape_of result ≡ group_of (head, map shape_of arguments.items) span }
{
    if arguments.is_empty() {
        let span = head.span;
        return Pattern::Constructor {
            mark: Mark::Written,
            head,
            arguments,
            span,
        };
    }
    Pattern::Constructor {
        mark: Mark::Written,
        head,
        arguments,
        span,
    }
}

// A constructor with the patterns of its fields in brackets, or a pattern in brackets.
#[cycle(pattern)]
#[tactic(auto, using(crate::proofs::Below::below_is), unfolding(crate::specs::Readers::bracketed_at, crate::specs::Readers::inside_at))]
fn bracketed<'a>(level: Level, ahead: Rest<'a>) -> Reading<'a, Pattern>
    ensures { Answers shape_of result (inside bracketed_at level.pass level.left ahead.now) }
{
    let (span, rest) = opener(Class::LeftParen, level.left, ahead)?;
    if !begins_constructor(rest) {
        let (inner, rest) = pattern(level.below(), rest)?;
        let (_, rest) = symbol(Class::RightParen, rest)?;
        return Ok((inner, rest));
    }
    let (head, rest) = used_constructor(rest)?;
    let (arguments, rest) = patterns(level.below(), rest)?;
    let (_, rest) = symbol(Class::RightParen, rest)?;
    Ok((group(head, arguments, span), rest))
}

// Another pattern, before which there are so many.
#[cycle(pattern)]
#[tactic(auto, using(crate::proofs::Below::level_is))]
fn another<'a>(level: Level, count: usize, ahead: Rest<'a>) -> Reading<'a, Pattern>
    ensures { Answers shape_of result
        (one_pattern_at level.pass (levels_at level.pass level.left) count ahead.now) }
{
    if level.pass.is_full(Quantity::Parts, count) {
        return Err(no_more(level, ahead));
    }
    pattern(level, ahead)
}

/// Any number of patterns, up to the limit.
#[cycle(pattern)]
pub fn patterns<'a>(level: Level, ahead: Rest<'a>) -> Reading<'a, Vec<Pattern>>
    ensures { Answers (λ v. map shape_of v.items) result
        (counted_at (λ n _. suc n) (of starts_pattern)
        (one_pattern_at level.pass (levels_at level.pass level.left)) 0 ahead.now) }
{
    let mut found = Vec::new(level.alloc);
    let mut rest = ahead;
    'patterns: for _ in 0..ahead.len() {
        if !begins_pattern(rest) {
            return Ok((found, rest));
        }
        let (one, after) = another(level, found.len(), rest)?;
        found.push(one)?;
        rest = after;
    }
    Ok((found, rest))
}

/// A pattern of a level.
#[cycle(pattern)]
#[tactic(auto, using(crate::proofs::Below::level_is), unfolding(crate::specs::Readers::pattern_at, crate::specs::Readers::other_pattern_at))]
pub fn pattern<'a>(level: Level, ahead: Rest<'a>) -> Reading<'a, Pattern>
    ensures { Answers shape_of result ((levels_at level.pass level.left).pattern ahead.now) }
{
    if begins_constructor(ahead) {
        return constructor(level, ahead);
    }
    match ahead {
        [first, ..] if first.class.is_pattern_word() => pattern_word(ahead),
        _ if begins(Class::DotParen, ahead) => dot(level, ahead),
        _ => bracketed(level, ahead),
    }
}

// A constructor without brackets.
fn constructor<'a>(level: Level, ahead: Rest<'a>) -> Reading<'a, Pattern>
    ensures { Answers shape_of result
        (making_at bare_of (token_at (λ _. None) (of is_constructor) named_of) ahead.now) }
{
    let (head, rest) = used_constructor(ahead)?;
    let span = head.span;
    Ok((
        Pattern::Constructor {
            mark: Mark::Written,
            head,
            arguments: Vec::new(level.alloc),
            span,
        },
        rest,
    ))
}

// A variable or `_`.
fn pattern_word<'a>(ahead: Rest<'a>) -> Reading<'a, Pattern>
    ensures { Answers shape_of result
        (token_at (λ _. None) (of is_pattern_word) (λ x. pattern_word x.class x) ahead.now) }
{
    match ahead {
        [first, rest @ ..] if Class::Small.same(first.class) => Ok((
            Pattern::Variable {
                mark: Mark::Written,
                name: first.name.copy()?,
                span: first.place,
            },
            rest,
        )),
        [first, rest @ ..] if Class::Wildcard.same(first.class) => Ok((
            Pattern::Wildcard {
                mark: Mark::Written,
                span: first.place,
            },
            rest,
        )),
        _ => Err(Stop::Bad(Reason::Unexpected, ahead)),
    }
}
