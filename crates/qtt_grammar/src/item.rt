//! Items.

ghost use Rattle.std.specs.Prelude.{◌≡◌, ◌<◌, [], ◌∷◌, map};
ghost use Rattle.qtt_phrase.specs.Reading.{cap_at, begins};
ghost use Rattle.qtt_phrase.specs.Reading.Kind.{unexpected};
ghost use Rattle.qtt_phrase.specs.Reading.Read.{got};
ghost use Rattle.qtt_syntax.specs.Tree as tree;
ghost use Rattle.qtt_syntax.specs.View.{param_of, con_of, item_of};
ghost use Rattle.qtt_grammar.specs.Classes.{same, is_left_paren};
ghost use Rattle.qtt_grammar.specs.Grammar.{of};
ghost use Rattle.qtt_grammar.specs.Limits.{one_above};
ghost use Rattle.qtt_grammar.specs.Readers.{next_at, up_to_at, param_at, params_at, con_at, next_con_at, more_cons_at, cons_at, family_at, partial_at, erased_at, signing_at, equation_at};
ghost use Rattle.qtt_grammar.specs.View.{Answers, Fails, with_front, within};

use crate::class::Class;
use crate::count::one_above;
use crate::expr::expr;
use crate::level::Level;
use crate::pattern::patterns;
use crate::stop::{Reason, Stop};
use crate::token::{Reading, Rest, begins, big_name, opener, simple_name, symbol, zero};
use crate::typing::typing;
use qtt_base::{Quantity, Span};
use qtt_syntax::{Clause, ConDecl, FamilyDecl, Item, Local, Param, SignatureDecl};
use qtt_usage::mult::Mult;

// Why no other one is read, which a lexeme of this form begins, where as many as may be stand
// before.
fn no_more<'a>(quantity: Quantity, class: Class, ahead: Rest<'a>) -> Stop<'a>
    ensures { Fails {A = tree.Item} result
        (cap_at (of (same class)) (λ _. unexpected) (λ x. one_above quantity x.place) ahead.now) }
{
    match ahead {
        [first, rest @ ..] if class.same(first.class) => {
            Stop::Over(one_above(quantity, first.place), rest)
        }
        _ => Stop::Bad(Reason::Unexpected, ahead),
    }
}

// A parameter of a family.
#[tactic(auto, using(crate::proofs::Below::below_is, crate::proofs::Below::opens), unfolding(crate::specs::Readers::param_at))]
fn param<'a>(level: Level, ahead: Rest<'a>) -> Reading<'a, Param>
    requires { 0 < level.left }
    ensures { Answers param_of result (within param_at level.pass level.left ahead.now) }
{
    let (span, rest) = opener(Class::LeftParen, level.left, ahead)?;
    let (mult, rest) = zero(rest);
    let (name, rest) = simple_name(rest)?;
    let (_, rest) = symbol(Class::Colon, rest)?;
    let (ty, rest) = expr(level.below(), false, rest)?;
    let (_, rest) = symbol(Class::RightParen, rest)?;
    Ok((
        Param {
            mult,
            name: name.name,
            ty,
            span,
        },
        rest,
    ))
}

// Another parameter, before which there are so many.
fn another_param<'a>(level: Level, count: usize, ahead: Rest<'a>) -> Reading<'a, Param>
    requires { 0 < level.left }
    ensures { Answers param_of result
        (up_to_at level.pass Quantity.Parts (of is_left_paren) (λ _. unexpected)
        (within param_at level.pass level.left) count ahead.now) }
{
    if level.pass.is_full(Quantity::Parts, count) {
        return Err(no_more(Quantity::Parts, Class::LeftParen, ahead));
    }
    param(level, ahead)
}

/// The parameters of a family.
#[tactic(auto, unfolding(crate::specs::Readers::params_at))]
pub fn params<'a>(level: Level, ahead: Rest<'a>) -> Reading<'a, Vec<Param>>
    requires { 0 < level.left }
    ensures { Answers (λ v. map param_of v.items) result
        (within params_at level.pass level.left 0 ahead.now) }
{
    let mut found = Vec::new(level.alloc);
    let mut rest = ahead;
    'params: for _ in 0..ahead.len() {
        if !begins(Class::LeftParen, rest) {
            return Ok((found, rest));
        }
        let (one, after) = another_param(level, found.len(), rest)?;
        found.push(one)?;
        rest = after;
    }
    Ok((found, rest))
}

// A constructor.
#[tactic(auto, unfolding(crate::specs::Readers::con_at))]
fn con<'a>(level: Level, ahead: Rest<'a>) -> Reading<'a, ConDecl>
    ensures { Answers con_of result (within con_at level.pass level.left ahead.now) }
{
    let (name, rest) = big_name(ahead)?;
    let (_, rest) = symbol(Class::Colon, rest)?;
    let (ty, rest) = typing(level, rest)?;
    let span = name.span;
    Ok((
        ConDecl {
            name: name.name,
            ty,
            span,
        },
        rest,
    ))
}

// Another constructor, before which there are so many.
#[tactic(auto, unfolding(crate::specs::Readers::next_con_at))]
fn next_con<'a>(level: Level, count: usize, ahead: Rest<'a>) -> Reading<'a, ConDecl>
    ensures { Answers con_of result (within next_con_at level.pass level.left count ahead.now) }
{
    let (_, rest) = symbol(Class::Next, ahead)?;
    if level.pass.is_full(Quantity::Constructors, count) {
        return Err(no_more(Quantity::Constructors, Class::Big, rest));
    }
    con(level, rest)
}

// The constructors behind the first one.
#[tactic(auto, unfolding(crate::specs::Readers::more_cons_at))]
fn more_cons<'a>(level: Level, first: ConDecl, ahead: Rest<'a>) -> Reading<'a, Vec<ConDecl>>
    ensures { Answers (λ v. map con_of v.items) result
        (with_front (con_of first ∷ []) (within more_cons_at level.pass level.left 1 ahead.now)) }
{
    let mut found = Vec::new(level.alloc);
    found.push(first)?;
    let mut rest = ahead;
    'cons: for _ in 0..ahead.len() {
        if !begins(Class::Next, rest) {
            return Ok((found, rest));
        }
        let (one, after) = next_con(level, found.len(), rest)?;
        found.push(one)?;
        rest = after;
    }
    Ok((found, rest))
}

// The constructors of a family.
#[tactic(auto, unfolding(crate::specs::Readers::cons_at))]
fn cons<'a>(level: Level, ahead: Rest<'a>) -> Reading<'a, Vec<ConDecl>>
    ensures { Answers (λ v. map con_of v.items) result
        (within cons_at level.pass level.left ahead.now) }
{
    if !begins(Class::Big, ahead) {
        return Ok((Vec::new(level.alloc), ahead));
    }
    let (first, rest) = con(level, ahead)?;
    more_cons(level, first, rest)
}

/// A family.
#[tactic(auto, unfolding(crate::specs::Readers::family_at))]
pub fn family<'a>(level: Level, ahead: Rest<'a>) -> Reading<'a, Item>
    requires { 0 < level.left }
    ensures { Answers item_of result (within family_at level.pass level.left ahead.now) }
{
    let (span, rest) = symbol(Class::Data, ahead)?;
    let (name, rest) = big_name(rest)?;
    let (params, rest) = params(level, rest)?;
    let (_, rest) = symbol(Class::Colon, rest)?;
    let (ty, rest) = expr(level, false, rest)?;
    let (_, rest) = symbol(Class::Where, rest)?;
    let (_, rest) = symbol(Class::Open, rest)?;
    let (constructors, rest) = cons(level, rest)?;
    let (_, rest) = symbol(Class::Close, rest)?;
    Ok((
        Item::Family(FamilyDecl {
            name: name.name,
            name_span: name.span,
            params,
            ty,
            constructors,
            span,
        }),
        rest,
    ))
}

// A Next, if it is there.
fn optional_next(ahead: Rest<'_>) -> (Option<Span>, Rest<'_>)
    ensures { next_at ahead.now ≡ got result.0 result.1.now }
{
    match ahead {
        [first, rest @ ..] if Class::Next.same(first.class) => (Some(first.place), rest),
        _ => (None, ahead),
    }
}

/// A signature that begins with `partial`.
#[tactic(auto, unfolding(crate::specs::Readers::partial_at))]
pub fn partial<'a>(level: Level, ahead: Rest<'a>) -> Reading<'a, Item>
    ensures { Answers item_of result (within partial_at level.pass level.left ahead.now) }
{
    let (span, rest) = symbol(Class::Partial, ahead)?;
    let (_, rest) = optional_next(rest);
    let (mult, rest) = zero(rest);
    let (name, rest) = simple_name(rest)?;
    let (_, rest) = symbol(Class::Colon, rest)?;
    let (ty, rest) = typing(level, rest)?;
    Ok((
        Item::Signature(SignatureDecl {
            partial: true,
            mult,
            name: name.name,
            name_span: name.span,
            ty,
            span,
        }),
        rest,
    ))
}

/// A signature that begins with `0`.
#[tactic(auto, unfolding(crate::specs::Readers::erased_at))]
pub fn erased<'a>(level: Level, ahead: Rest<'a>) -> Reading<'a, Item>
    ensures { Answers item_of result (within erased_at level.pass level.left ahead.now) }
{
    let (span, rest) = symbol(Class::Zero, ahead)?;
    let (name, rest) = simple_name(rest)?;
    let (_, rest) = symbol(Class::Colon, rest)?;
    let (ty, rest) = typing(level, rest)?;
    Ok((
        Item::Signature(SignatureDecl {
            partial: false,
            mult: Mult::Zero,
            name: name.name,
            name_span: name.span,
            ty,
            span,
        }),
        rest,
    ))
}

/// A signature, behind its name.
#[tactic(auto, unfolding(crate::specs::Readers::signing_at))]
pub fn signing<'a>(level: Level, name: Local, ahead: Rest<'a>) -> Reading<'a, Item>
    ensures { Answers item_of result (within signing_at level.pass level.left name ahead.now) }
{
    let (_, rest) = symbol(Class::Colon, ahead)?;
    let (ty, rest) = typing(level, rest)?;
    let span = name.span;
    Ok((
        Item::Signature(SignatureDecl {
            partial: false,
            mult: Mult::Many,
            name: name.name,
            name_span: span,
            ty,
            span,
        }),
        rest,
    ))
}

/// A clause, behind its name.
#[tactic(auto, unfolding(crate::specs::Readers::equation_at, crate::specs::Readers::clause_patterns_at))]
pub fn equation<'a>(level: Level, name: Local, ahead: Rest<'a>) -> Reading<'a, Item>
    ensures { Answers item_of result (within equation_at level.pass level.left name ahead.now) }
{
    let (patterns, rest) = patterns(level, ahead)?;
    let (_, rest) = symbol(Class::Equals, rest)?;
    let (side, rest) = expr(level, true, rest)?;
    let span = name.span;
    Ok((
        Item::Clause(Clause {
            name: name.name,
            patterns,
            side,
            span,
        }),
        rest,
    ))
}
