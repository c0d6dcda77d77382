//! The chains of types: which binder is one too many for an index or a field.

ghost use Rattle.std.specs.Prelude.{◌≡◌, ◌<◌, false, nat_lt};
ghost use Rattle.qtt_phrase.specs.Phrase.{opens};
ghost use Rattle.qtt_phrase.specs.Reading.{begins, cap_at, placed_at};
ghost use Rattle.qtt_phrase.specs.Reading.Kind.{too_deep};
ghost use Rattle.qtt_syntax.specs.View.{tree_of, binder_of};
ghost use Rattle.qtt_grammar.specs.Chain.{chain_excess};
ghost use Rattle.qtt_grammar.specs.ChainReaders.{Pending, unchained_at, behind_name, behind_binder, codomain_chain_at, pi_chain_at, codomain_at_place, extra_binder_at, arrow_chain_at, binder_chain_at, implicit_chain_at, chains_at};
ghost use Rattle.qtt_grammar.specs.ChainView.{starts_form, chained};
ghost use Rattle.qtt_grammar.specs.Classes.{is_arrow, is_left_brace};
ghost use Rattle.qtt_grammar.specs.Grammar.{of, place};
ghost use Rattle.qtt_grammar.specs.Limits.{is_full, one_above};
ghost use Rattle.qtt_grammar.specs.Readers.{typed_at, app_at, levels_at};
ghost use Rattle.qtt_grammar.specs.View.{Answers, Fails, inside};

use crate::application::app;
use crate::binder::typed;
use crate::class::{Class, Pass};
use crate::count::one_above;
use crate::expr::expr;
use crate::level::Level;
use crate::stop::{Excess, Reason, Stop};
use crate::token::{Reading, Rest, begins, begins_binder, opener, simple_name, symbol};
use crate::typing::erased;
use qtt_base::{Quantity, Span};
use qtt_syntax::{Binder, Expr};
use std::alloc::Global;

/// The first binder of a type's chain that is one too many, where so many stand before.
pub fn chain_excess(ty: &Expr, before: usize) -> Option<Excess>
    ensures { result ≡ chain_excess before (tree_of ty.now) }
{
    match ty {
        Expr::Pi { codomain, span, .. } => {
            if Pass::Counts.is_full(Quantity::Parts, before) {
                Some(one_above(Quantity::Parts, *span))
            } else {
                chain_excess(codomain, before + 1)
            }
        }
        _ => None,
    }
}

/// A level where nothing is counted, inside which so many others may open.
pub fn free(alloc: Global, left: u32) -> Level
    ensures { result ≡ record { alloc = alloc; pass = Pass.Free; left = left } }
{
    let pass = Pass::Free;
    Level { alloc, pass, left }
}

// Whether a binder before which so many stand is one too many.
fn is_extra(before: usize) -> bool
    ensures full { result ≡ is_full Pass.Counts Quantity.Parts before }
    ensures below { result ≡ false → before < 100 }
{
    Pass::Counts.is_full(Quantity::Parts, before)
}

// A binder in brackets.
#[tactic(auto, using(crate::proofs::Below::level_is))]
fn bound<'a>(level: Level, ahead: Rest<'a>) -> Reading<'a, Binder>
    ensures { Answers binder_of result (inside typed_at level.pass level.left ahead.now) }
{
    let read = |left, tail, rest|
        requires { left < level.left }
        ensures { Answers tree_of result ((levels_at level.pass left).expr tail rest.now) }
    { expr(level.at(left), tail, rest) };
    typed(level, &read, ahead)
}

// An application and its place.
#[tactic(auto, using(crate::proofs::Below::level_is))]
fn domain<'a>(level: Level, ahead: Rest<'a>) -> Reading<'a, (Span, Expr)>
    ensures { Answers (λ d. (d.0, tree_of d.1)) result
        (placed_at place (inside app_at level.pass level.left) ahead.now) }
{
    let read = |left, tail, rest|
        requires { left < level.left }
        ensures { Answers tree_of result ((levels_at level.pass left).expr tail rest.now) }
    { expr(level.at(left), tail, rest) };
    match ahead {
        [first, ..] => {
            let (application, rest) = app(level, &read, ahead)?;
            Ok(((first.place, application), rest))
        }
        [] => Err(Stop::Bad(Reason::Unexpected, ahead)),
    }
}

// What stands behind a name and its colon, or behind `_`.
fn behind_name(ahead: Rest<'_>) -> Rest<'_>
    ensures { result.now ≡ behind_name ahead.now }
{
    match ahead {
        [] | [_] => &[],
        [first, rest @ ..] if Class::Wildcard.same(first.class) => rest,
        [_, _, rest @ ..] => rest,
    }
}

// What stands behind the tokens that tell a binder from an expression.
fn behind_binder(ahead: Rest<'_>) -> Rest<'_>
    ensures { result.now ≡ behind_binder ahead.now }
{
    match ahead {
        [first, rest @ ..] if first.class.is_digit() => behind_name(rest),
        _ => behind_name(ahead),
    }
}

// Why a binder that is one too many is not read.
fn extra_binder<'a>(left: u32, ahead: Rest<'a>) -> Stop<'a>
    ensures { Fails {A = Pending} result (extra_binder_at (nat_lt 0 left) ahead.now) }
{
    match ahead {
        [first, rest @ ..] if left > 0 => Stop::Over(
            one_above(Quantity::Parts, first.place),
            behind_binder(rest),
        ),
        [_, ..] => Stop::Bad(Reason::TooDeep, ahead),
        [] => Stop::Bad(Reason::Unexpected, ahead),
    }
}

// Why "->" is not read behind what stands there, where that is one too many.
fn extra_arrow<'a>(left: u32, place: Span, ahead: Rest<'a>) -> Stop<'a>
    ensures { Fails {A = Pending} result
        (cap_at (opens (nat_lt 0 left) (of is_arrow)) (λ _. too_deep)
        (λ _. one_above Quantity.Parts place) ahead.now) }
{
    match ahead {
        [first, rest @ ..] if left > 0 && Class::Arrow.same(first.class) => {
            Stop::Over(one_above(Quantity::Parts, place), rest)
        }
        [_, ..] => Stop::Bad(Reason::TooDeep, ahead),
        [] => Stop::Bad(Reason::Unexpected, ahead),
    }
}

// Why a binder in braces that is one too many is not read.
fn extra_braces<'a>(left: u32, ahead: Rest<'a>) -> Stop<'a>
    ensures { Fails {A = Pending} result
        (cap_at (opens (nat_lt 0 left) (of is_left_brace)) (λ _. too_deep)
        (λ x. one_above Quantity.Parts x.place) ahead.now) }
{
    match ahead {
        [first, rest @ ..] if left > 0 && Class::LeftBrace.same(first.class) => {
            Stop::Over(one_above(Quantity::Parts, first.place), rest)
        }
        [_, ..] => Stop::Bad(Reason::TooDeep, ahead),
        [] => Stop::Bad(Reason::Unexpected, ahead),
    }
}

// Whether an expression begins here in which no binder of a chain stands.
fn begins_form(ahead: Rest<'_>) -> bool
    ensures { result ≡ begins (of starts_form) ahead.now }
{
    begins(Class::Let, ahead)
        || begins(Class::Hole, ahead)
        || begins(Class::Backslash, ahead)
        || begins(Class::Do, ahead)
}

// Such an expression.
fn form<'a>(alloc: Global, left: u32, ahead: Rest<'a>) -> Reading<'a, Option<Excess>>
    ensures { Answers (λ d. d) result
        (unchained_at ((levels_at Pass.Free left).expr false) ahead.now) }
{
    let (_, rest) = expr(free(alloc, left), false, ahead)?;
    Ok((None, rest))
}

// "->" and the chain behind it, where so many binders stand before.
#[cycle(chain)]
#[tactic(auto, using(crate::proofs::ChainBelow::chains_below_is))]
fn codomain_chain<'a>(
    alloc: Global,
    left: u32,
    before: usize,
    ahead: Rest<'a>,
) -> Reading<'a, Option<Excess>>
    requires { before < 100 }
    ensures { Answers (λ d. d) result (chained codomain_chain_at left before ahead.now) }
{
    let (_, rest) = opener(Class::Arrow, left, ahead)?;
    expr_chain(alloc, left - 1, before + 1, rest)
}

// A binder in brackets and the chain behind it.
#[cycle(chain)]
#[tactic(auto, unfolding(crate::specs::ChainReaders::pi_chain_at))]
fn pi_chain<'a>(
    alloc: Global,
    left: u32,
    before: usize,
    ahead: Rest<'a>,
) -> Reading<'a, Option<Excess>>
    requires { before < 100 }
    ensures { Answers (λ d. d) result (chained pi_chain_at left before ahead.now) }
{
    let (_, rest) = bound(free(alloc, left), ahead)?;
    codomain_chain(alloc, left, before, rest)
}

// "->" and the chain behind it, for a binder that stands there.
#[cycle(chain)]
#[tactic(auto, unfolding(crate::specs::ChainReaders::codomain_at_place))]
fn placed_codomain<'a>(
    alloc: Global,
    left: u32,
    before: usize,
    place: Span,
    ahead: Rest<'a>,
) -> Reading<'a, Option<Excess>>
    ensures { Answers (λ d. d) result (chained codomain_at_place left before place ahead.now) }
{
    if is_extra(before) {
        return Err(extra_arrow(left, place, ahead));
    }
    codomain_chain(alloc, left, before, ahead)
}

// An application, and the chain behind it if there is one.
#[cycle(chain)]
#[tactic(auto, unfolding(crate::specs::ChainReaders::arrow_chain_at))]
fn arrow_chain<'a>(
    alloc: Global,
    left: u32,
    before: usize,
    ahead: Rest<'a>,
) -> Reading<'a, Option<Excess>>
    ensures { Answers (λ d. d) result (chained arrow_chain_at left before ahead.now) }
{
    let ((place, domain), rest) = domain(free(alloc, left), ahead)?;
    if !begins(Class::Arrow, rest) {
        return Ok((chain_excess(&domain, before), rest));
    }
    placed_codomain(alloc, left, before, place, rest)
}

// A chain that begins with a binder, or an application.
#[cycle(chain)]
#[tactic(auto, unfolding(crate::specs::ChainReaders::binder_chain_at))]
fn binder_chain<'a>(
    alloc: Global,
    left: u32,
    before: usize,
    ahead: Rest<'a>,
) -> Reading<'a, Option<Excess>>
    ensures { Answers (λ d. d) result (chained binder_chain_at left before ahead.now) }
{
    if !begins_binder(ahead) {
        return arrow_chain(alloc, left, before, ahead);
    }
    if is_extra(before) {
        return Err(extra_binder(left, ahead));
    }
    pi_chain(alloc, left, before, ahead)
}

/// A type of a level inside which so many others may open, as a chain before which so many
/// binders stand: the first one that is one too many stops it. What is given is the one that is
/// if the type ends there.
#[cycle(chain)]
#[tactic(auto, using(crate::proofs::ChainBelow::form_is, crate::proofs::ChainBelow::chain_is))]
pub fn expr_chain<'a>(
    alloc: Global,
    left: u32,
    before: usize,
    ahead: Rest<'a>,
) -> Reading<'a, Option<Excess>>
    ensures { Answers (λ d. d) result ((chains_at left).expr before ahead.now) }
{
    if begins_form(ahead) {
        form(alloc, left, ahead)
    } else {
        binder_chain(alloc, left, before, ahead)
    }
}

// A binder in braces and the chain behind it.
#[cycle(typing_chain)]
#[tactic(auto, using(crate::proofs::Below::below_is, crate::proofs::ChainBelow::chains_below_is), unfolding(crate::specs::ChainReaders::implicit_chain_at))]
fn implicit_chain<'a>(
    alloc: Global,
    left: u32,
    before: usize,
    ahead: Rest<'a>,
) -> Reading<'a, Option<Excess>>
    ensures { Answers (λ d. d) result (chained implicit_chain_at left before ahead.now) }
{
    if is_extra(before) {
        return Err(extra_braces(left, ahead));
    }
    let (_, rest) = opener(Class::LeftBrace, left, ahead)?;
    let (_, rest) = erased(rest)?;
    let (_, rest) = simple_name(rest)?;
    let (_, rest) = symbol(Class::Colon, rest)?;
    let (_, rest) = expr(free(alloc, left - 1), false, rest)?;
    let (_, rest) = symbol(Class::RightBrace, rest)?;
    let (_, rest) = opener(Class::Arrow, left, rest)?;
    typing_chain(alloc, left - 1, before + 1, rest)
}

/// The same for a type with its brace binders.
#[cycle(typing_chain)]
#[tactic(auto, using(crate::proofs::ChainBelow::chain_level_is), unfolding(crate::specs::ChainReaders::typing_chain_at))]
pub fn typing_chain<'a>(
    alloc: Global,
    left: u32,
    before: usize,
    ahead: Rest<'a>,
) -> Reading<'a, Option<Excess>>
    ensures { Answers (λ d. d) result ((chains_at left).typing before ahead.now) }
{
    if begins(Class::LeftBrace, ahead) {
        implicit_chain(alloc, left, before, ahead)
    } else {
        expr_chain(alloc, left, before, ahead)
    }
}
