//! Applications and arrows.

ghost use Rattle.std.specs.Prelude.{◌≡◌, map, option_map, IfOk};
ghost use Rattle.qtt_phrase.specs.Reading.{many_at, making_at};
ghost use Rattle.qtt_syntax.specs.View.{tree_of, argument_of};
ghost use Rattle.qtt_grammar.specs.Classes.{starts_atom, is_left_brace};
ghost use Rattle.qtt_grammar.specs.Grammar.{of, written_of, app_of, arrow_of};
ghost use Rattle.qtt_grammar.specs.Readers.{bracket_at, other_atom_at, atom_at, brace_at, the_at, named_app_at, other_app_at, app_at, codomain_at, arrow_at};
ghost use Rattle.qtt_grammar.specs.View.{Answers, inside, with_front, MayReadBelow, ReadsBelow};

use crate::class::Class;
use crate::level::Level;
use crate::lexeme::unnamed;
use crate::token::{
    Reading, Rest, begins, begins_atom, begins_name, first_place, opener, symbol, used_name, word,
};
use qtt_base::{MemoryError, Span};
use qtt_syntax::{Argument, Expr, Mark};
use qtt_usage::mult::Mult;
use std::alloc::Global;

/// An expression in brackets, which leave no trace.
#[tactic(auto, using(crate::proofs::Below::below_is), unfolding(crate::specs::Readers::bracket_at))]
pub fn bracket<'a, E: Fn(u32, bool, Rest<'a>) -> Reading<'a, Expr>>(
    level: Level,
    read: &E,
    ahead: Rest<'a>,
) -> Reading<'a, Expr>
    requires callable { MayReadBelow level.left (E.pre read.now) }
    requires reads { ReadsBelow level.pass level.left (E.post read.now) }
    ensures { Answers tree_of result (inside bracket_at level.pass level.left ahead.now) }
{
    let (_, rest) = opener(Class::LeftParen, level.left, ahead)?;
    let (inner, rest) = read(level.left - 1, false, rest)?;
    let (_, rest) = symbol(Class::RightParen, rest)?;
    Ok((inner, rest))
}

/// An atom that is no name.
#[tactic(auto, unfolding(crate::specs::Readers::other_atom_at))]
pub fn other_atom<'a, E: Fn(u32, bool, Rest<'a>) -> Reading<'a, Expr>>(
    level: Level,
    read: &E,
    ahead: Rest<'a>,
) -> Reading<'a, Expr>
    requires callable { MayReadBelow level.left (E.pre read.now) }
    requires reads { ReadsBelow level.pass level.left (E.post read.now) }
    ensures { Answers tree_of result (inside other_atom_at level.pass level.left ahead.now) }
{
    match ahead {
        [first, ..] if first.class.is_word() => word(level, ahead),
        _ => bracket(level, read, ahead),
    }
}

/// An atom.
#[tactic(auto, unfolding(crate::specs::Readers::atom_at))]
pub fn atom<'a, E: Fn(u32, bool, Rest<'a>) -> Reading<'a, Expr>>(
    level: Level,
    read: &E,
    ahead: Rest<'a>,
) -> Reading<'a, Expr>
    requires callable { MayReadBelow level.left (E.pre read.now) }
    requires reads { ReadsBelow level.pass level.left (E.post read.now) }
    ensures { Answers tree_of result (inside atom_at level.pass level.left ahead.now) }
{
    if !begins_name(ahead) {
        return other_atom(level, read, ahead);
    }
    let (name, rest) = used_name(ahead)?;
    Ok((Expr::Name(name), rest))
}

/// An argument in braces.
#[tactic(auto, using(crate::proofs::Below::below_is), unfolding(crate::specs::Readers::brace_at))]
pub fn brace<'a, E: Fn(u32, bool, Rest<'a>) -> Reading<'a, Expr>>(
    level: Level,
    read: &E,
    ahead: Rest<'a>,
) -> Reading<'a, Argument>
    requires callable { MayReadBelow level.left (E.pre read.now) }
    requires reads { ReadsBelow level.pass level.left (E.post read.now) }
    ensures { Answers argument_of result (inside brace_at level.pass level.left ahead.now) }
{
    let (_, rest) = opener(Class::LeftBrace, level.left, ahead)?;
    let (inner, rest) = read(level.left - 1, false, rest)?;
    let (_, rest) = symbol(Class::RightBrace, rest)?;
    Ok((Argument::Braced(inner), rest))
}

/// Any number of arguments in braces.
#[tactic(auto)]
pub fn braces<'a, E: Fn(u32, bool, Rest<'a>) -> Reading<'a, Expr>>(
    level: Level,
    read: &E,
    ahead: Rest<'a>,
) -> Reading<'a, Vec<Argument>>
    requires callable { MayReadBelow level.left (E.pre read.now) }
    requires reads { ReadsBelow level.pass level.left (E.post read.now) }
    ensures { Answers (λ v. map argument_of v.items) result
        (many_at (of is_left_brace) (inside brace_at level.pass level.left) ahead.now) }
{
    let mut found = Vec::new(level.alloc);
    let mut rest = ahead;
    'braces: for _ in 0..ahead.len() {
        if !begins(Class::LeftBrace, rest) {
            return Ok((found, rest));
        }
        let (one, after) = brace(level, read, rest)?;
        found.push(one)?;
        rest = after;
    }
    Ok((found, rest))
}

/// Any number of atoms, as arguments behind those found so far.
#[tactic(auto)]
pub fn atoms<'a, E: Fn(u32, bool, Rest<'a>) -> Reading<'a, Expr>>(
    level: Level,
    read: &E,
    mut found: Vec<Argument>,
    ahead: Rest<'a>,
) -> Reading<'a, Vec<Argument>>
    requires callable { MayReadBelow level.left (E.pre read.now) }
    requires reads { ReadsBelow level.pass level.left (E.post read.now) }
    ensures { Answers (λ v. map argument_of v.items) result
        (with_front (map argument_of found.items)
        (many_at (of starts_atom) (making_at written_of (inside atom_at level.pass level.left))
        ahead.now)) }
{
    let mut rest = ahead;
    'atoms: for _ in 0..ahead.len() {
        if !begins_atom(rest) {
            return Ok((found, rest));
        }
        let (one, after) = atom(level, read, rest)?;
        found.push(Argument::Written(one))?;
        rest = after;
    }
    Ok((found, rest))
}

/// `the T e`
#[tactic(auto, unfolding(crate::specs::Readers::the_at))]
pub fn the<'a, E: Fn(u32, bool, Rest<'a>) -> Reading<'a, Expr>>(
    level: Level,
    read: &E,
    ahead: Rest<'a>,
) -> Reading<'a, Expr>
    requires callable { MayReadBelow level.left (E.pre read.now) }
    requires reads { ReadsBelow level.pass level.left (E.post read.now) }
    ensures { Answers tree_of result (inside the_at level.pass level.left ahead.now) }
{
    let (span, rest) = symbol(Class::The, ahead)?;
    let (ty, rest) = atom(level, read, rest)?;
    let (value, rest) = atom(level, read, rest)?;
    Ok((
        Expr::The {
            ty: Box::new(level.alloc, ty)?,
            value: Box::new(level.alloc, value)?,
            span,
        },
        rest,
    ))
}

// A function with its arguments, or alone where there are none.
fn applied(
    alloc: Global,
    function: Expr,
    arguments: Vec<Argument>,
    span: Span,
) -> Result<Expr, MemoryError>
    ensures { IfOk result (λ t. tree_of t ≡ app_of span (tree_of function)
        (map argument_of arguments.items)) }
{
    if arguments.is_empty() {
        return Ok(function);
    }
    Ok(Expr::Apply {
        function: Box::new(alloc, function)?,
        arguments,
        span,
    })
}

/// An application of a name.
#[tactic(auto, unfolding(crate::specs::Readers::named_app_at))]
pub fn named_app<'a, E: Fn(u32, bool, Rest<'a>) -> Reading<'a, Expr>>(
    level: Level,
    read: &E,
    ahead: Rest<'a>,
) -> Reading<'a, Expr>
    requires callable { MayReadBelow level.left (E.pre read.now) }
    requires reads { ReadsBelow level.pass level.left (E.post read.now) }
    ensures { Answers tree_of result (inside named_app_at level.pass level.left ahead.now) }
{
    let (name, rest) = used_name(ahead)?;
    let span = name.span;
    let (found, rest) = braces(level, read, rest)?;
    let (arguments, rest) = atoms(level, read, found, rest)?;
    Ok((
        applied(level.alloc, Expr::Name(name), arguments, span)?,
        rest,
    ))
}

/// An application of an atom that is no name.
#[tactic(auto, unfolding(crate::specs::Readers::other_app_at))]
pub fn other_app<'a, E: Fn(u32, bool, Rest<'a>) -> Reading<'a, Expr>>(
    level: Level,
    read: &E,
    ahead: Rest<'a>,
) -> Reading<'a, Expr>
    requires callable { MayReadBelow level.left (E.pre read.now) }
    requires reads { ReadsBelow level.pass level.left (E.post read.now) }
    ensures { Answers tree_of result (inside other_app_at level.pass level.left ahead.now) }
{
    let span = first_place(ahead)?;
    let (function, rest) = other_atom(level, read, ahead)?;
    let (arguments, rest) = atoms(level, read, Vec::new(level.alloc), rest)?;
    Ok((applied(level.alloc, function, arguments, span)?, rest))
}

/// An application.
#[tactic(auto, unfolding(crate::specs::Readers::app_at))]
pub fn app<'a, E: Fn(u32, bool, Rest<'a>) -> Reading<'a, Expr>>(
    level: Level,
    read: &E,
    ahead: Rest<'a>,
) -> Reading<'a, Expr>
    requires callable { MayReadBelow level.left (E.pre read.now) }
    requires reads { ReadsBelow level.pass level.left (E.post read.now) }
    ensures { Answers tree_of result (inside app_at level.pass level.left ahead.now) }
{
    if begins(Class::The, ahead) {
        the(level, read, ahead)
    } else if begins_name(ahead) {
        named_app(level, read, ahead)
    } else {
        other_app(level, read, ahead)
    }
}

/// What stands behind an arrow, if there is one.
#[tactic(auto, using(crate::proofs::Below::below_is))]
pub fn codomain<'a, E: Fn(u32, bool, Rest<'a>) -> Reading<'a, Expr>>(
    level: Level,
    read: &E,
    ahead: Rest<'a>,
) -> Reading<'a, Option<Expr>>
    requires callable { MayReadBelow level.left (E.pre read.now) }
    requires reads { ReadsBelow level.pass level.left (E.post read.now) }
    ensures { Answers (option_map tree_of) result
        (inside codomain_at level.pass level.left ahead.now) }
{
    if !begins(Class::Arrow, ahead) {
        return Ok((None, ahead));
    }
    let (_, rest) = opener(Class::Arrow, level.left, ahead)?;
    let (codomain, rest) = read(level.left - 1, false, rest)?;
    Ok((Some(codomain), rest))
}

// The function type, or the domain alone where nothing stands behind it.
fn arrow_type(
    alloc: Global,
    domain: Expr,
    codomain: Option<Expr>,
    span: Span,
) -> Result<Expr, MemoryError>
    ensures { IfOk result (λ t. tree_of t ≡ arrow_of
        ((span, tree_of domain), option_map tree_of codomain)) }
{
    let Some(codomain) = codomain else {
        return Ok(domain);
    };
    Ok(Expr::Pi {
        mark: Mark::Written,
        mult: Mult::Many,
        name: unnamed(alloc)?,
        domain: Box::new(alloc, domain)?,
        codomain: Box::new(alloc, codomain)?,
        span,
    })
}

/// An application, or an arrow that begins with it.
#[tactic(auto, unfolding(crate::specs::Readers::arrow_at))]
pub fn arrow<'a, E: Fn(u32, bool, Rest<'a>) -> Reading<'a, Expr>>(
    level: Level,
    read: &E,
    ahead: Rest<'a>,
) -> Reading<'a, Expr>
    requires callable { MayReadBelow level.left (E.pre read.now) }
    requires reads { ReadsBelow level.pass level.left (E.post read.now) }
    ensures { Answers tree_of result (inside arrow_at level.pass level.left ahead.now) }
{
    let span = first_place(ahead)?;
    let (domain, rest) = app(level, read, ahead)?;
    let (codomain, rest) = codomain(level, read, rest)?;
    Ok((arrow_type(level.alloc, domain, codomain, span)?, rest))
}
