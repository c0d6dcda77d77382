//! Blocks and their statements.

ghost use Rattle.std.specs.Prelude.{◌≡◌, ◌+◌, ◌<◌, false, None, option_map, IfOk, OnOk};
ghost use Rattle.qtt_syntax.specs.View.{tree_of, written_type, statement_of};
ghost use Rattle.qtt_grammar.specs.Grammar.{of, place, let_of, let_statement_of, run_of};
ghost use Rattle.qtt_grammar.specs.Classes.{is_let};
ghost use Rattle.qtt_phrase.specs.Reading.{begins, making_at, placed_at};
ghost use Rattle.qtt_grammar.specs.Readers.{annotation_at, let_head_at, letting_at, body_at, let_statement_at, binding_at, expr_at, other_expr_at, statement_at};
ghost use Rattle.qtt_grammar.specs.View.{Answers, inside, MayReadBelow, ReadsBelow, let_parts_of};

use crate::class::Class;
use crate::level::Level;
use crate::token::{
    Reading, Rest, begins, begins_bind, bound_name, first_place, mark, opener, symbol,
};
use qtt_base::{MemoryError, Span};
use qtt_syntax::{Expr, Local, Statement};
use qtt_usage::mult::Mult;
use std::alloc::Global;

/// What a `let` binds.
#[derive(Debug, Drop)]
pub struct LetHead {
    pub mult: Mult,
    pub name: Local,
    pub ty: Option<Box<Expr>>,
    pub value: Expr,
    pub span: Span,
}

/// The type of a `let`, if one is written.
#[tactic(auto, using(crate::proofs::Below::below_is), unfolding(crate::specs::Readers::annotation_at))]
pub fn annotation<'a, E: Fn(u32, bool, Rest<'a>) -> Reading<'a, Expr>>(
    level: Level,
    read: &E,
    ahead: Rest<'a>,
) -> Reading<'a, Option<Box<Expr>>>
    requires may { 0 < level.left }
    requires callable { MayReadBelow level.left (E.pre read.now) }
    requires reads { ReadsBelow level.pass level.left (E.post read.now) }
    ensures { Answers written_type result (inside annotation_at level.pass level.left ahead.now) }
{
    if !begins(Class::Colon, ahead) {
        return Ok((None, ahead));
    }
    let (_, rest) = symbol(Class::Colon, ahead)?;
    let (ty, rest) = read(level.left - 1, false, rest)?;
    Ok((Some(Box::new(level.alloc, ty)?), rest))
}

/// `let x : T = e`
#[tactic(auto, using(crate::proofs::Below::below_is), unfolding(crate::specs::Readers::let_head_at))]
pub fn let_head<'a, E: Fn(u32, bool, Rest<'a>) -> Reading<'a, Expr>>(
    level: Level,
    read: &E,
    ahead: Rest<'a>,
) -> Reading<'a, LetHead>
    requires callable { MayReadBelow level.left (E.pre read.now) }
    requires reads { ReadsBelow level.pass level.left (E.post read.now) }
    ensures reads { Answers let_parts_of result
        (inside let_head_at level.pass level.left ahead.now) }
    ensures may { OnOk result (0 < level.left) }
{
    let (span, rest) = opener(Class::Let, level.left, ahead)?;
    let (mult, rest) = mark(rest);
    let (name, rest) = bound_name(rest)?;
    let (ty, rest) = annotation(level, read, rest)?;
    let (_, rest) = symbol(Class::Equals, rest)?;
    let (value, rest) = read(level.left - 1, false, rest)?;
    Ok((
        LetHead {
            mult,
            name,
            ty,
            value,
            span,
        },
        rest,
    ))
}

// The head of a `let` with what stands behind its `in`.
fn let_in(alloc: Global, head: LetHead, body: Expr) -> Result<Expr, MemoryError>
    ensures { IfOk result (λ t. tree_of t ≡ let_of (let_parts_of head, (head.span, tree_of body))) }
{
    Ok(Expr::Let {
        mult: head.mult,
        name: head.name,
        ty: head.ty,
        value: Box::new(alloc, head.value)?,
        body: Box::new(alloc, body)?,
        span: head.span,
    })
}

/// `let x : T = e in b`
#[tactic(auto, using(crate::proofs::Below::below_is), unfolding(crate::specs::Readers::letting_at))]
pub fn letting<'a, E: Fn(u32, bool, Rest<'a>) -> Reading<'a, Expr>>(
    level: Level,
    read: &E,
    tail: bool,
    ahead: Rest<'a>,
) -> Reading<'a, Expr>
    requires callable { MayReadBelow level.left (E.pre read.now) }
    requires reads { ReadsBelow level.pass level.left (E.post read.now) }
    ensures { Answers tree_of result (inside letting_at level.pass level.left tail ahead.now) }
{
    let (head, rest) = let_head(level, read, ahead)?;
    let (_, rest) = symbol(Class::In, rest)?;
    let (body, rest) = read(level.left - 1, tail, rest)?;
    Ok((let_in(level.alloc, head, body)?, rest))
}

// A `let` that stands alone.
fn let_alone(head: LetHead) -> Statement
    ensures { statement_of result ≡ let_statement_of (let_parts_of head, None) }
{
    Statement::Let {
        mult: head.mult,
        name: head.name,
        ty: head.ty,
        value: head.value,
        span: head.span,
    }
}

/// The body behind the `in` of a `let`, if there is one.
#[tactic(auto, using(crate::proofs::Below::below_is))]
pub fn body<'a, E: Fn(u32, bool, Rest<'a>) -> Reading<'a, Expr>>(
    level: Level,
    read: &E,
    tail: bool,
    ahead: Rest<'a>,
) -> Reading<'a, Option<Expr>>
    requires may { 0 < level.left }
    requires callable { MayReadBelow level.left (E.pre read.now) }
    requires reads { ReadsBelow level.pass level.left (E.post read.now) }
    ensures { Answers (option_map tree_of) result
        (inside body_at level.pass level.left tail ahead.now) }
{
    if !begins(Class::In, ahead) {
        return Ok((None, ahead));
    }
    let (_, rest) = symbol(Class::In, ahead)?;
    let (body, rest) = read(level.left - 1, tail, rest)?;
    Ok((Some(body), rest))
}

// A `let` as a statement, which is an expression where a body stands behind it.
fn let_with(alloc: Global, head: LetHead, body: Option<Expr>) -> Result<Statement, MemoryError>
    ensures { IfOk result (λ s. statement_of s ≡ let_statement_of
        (let_parts_of head, option_map tree_of body)) }
{
    let span = head.span;
    match body {
        None => Ok(let_alone(head)),
        Some(body) => Ok(Statement::Run {
            value: let_in(alloc, head, body)?,
            span,
        }),
    }
}

/// A statement that begins with `let`.
#[tactic(auto, using(crate::proofs::Below::below_is), unfolding(crate::specs::Readers::let_statement_at))]
pub fn let_statement<'a, E: Fn(u32, bool, Rest<'a>) -> Reading<'a, Expr>>(
    level: Level,
    read: &E,
    tail: bool,
    ahead: Rest<'a>,
) -> Reading<'a, Statement>
    requires callable { MayReadBelow level.left (E.pre read.now) }
    requires reads { ReadsBelow level.pass level.left (E.post read.now) }
    ensures { Answers statement_of result
        (inside let_statement_at level.pass level.left tail ahead.now) }
{
    let (head, rest) = let_head(level, read, ahead)?;
    let (body, rest) = body(level, read, tail, rest)?;
    Ok((let_with(level.alloc, head, body)?, rest))
}

/// `x <- e`
#[tactic(auto, using(crate::proofs::Below::level_is), unfolding(crate::specs::Readers::binding_at))]
pub fn binding<'a, E: Fn(u32, bool, Rest<'a>) -> Reading<'a, Expr>>(
    level: Level,
    read: &E,
    ahead: Rest<'a>,
) -> Reading<'a, Statement>
    requires callable { MayReadBelow (level.left + 1) (E.pre read.now) }
    requires reads { ReadsBelow level.pass (level.left + 1) (E.post read.now) }
    ensures { Answers statement_of result (inside binding_at level.pass level.left ahead.now) }
{
    let (name, rest) = bound_name(ahead)?;
    let (_, rest) = symbol(Class::LeftArrow, rest)?;
    let (value, rest) = read(level.left, false, rest)?;
    Ok((Statement::Bind { name, value }, rest))
}

/// An expression of this level.
#[tactic(auto, using(crate::proofs::Below::level_is))]
pub fn here<'a, E: Fn(u32, bool, Rest<'a>) -> Reading<'a, Expr>>(
    level: Level,
    read: &E,
    tail: bool,
    ahead: Rest<'a>,
) -> Reading<'a, Expr>
    requires callable { MayReadBelow (level.left + 1) (E.pre read.now) }
    requires reads { ReadsBelow level.pass (level.left + 1) (E.post read.now) }
    ensures { Answers tree_of result (inside expr_at level.pass level.left tail ahead.now) }
{
    read(level.left, tail, ahead)
}

/// A statement that is an expression and begins with no `let`.
#[tactic(auto, using(crate::proofs::Below::level_is))]
pub fn run<'a, E: Fn(u32, bool, Rest<'a>) -> Reading<'a, Expr>>(
    level: Level,
    read: &E,
    tail: bool,
    ahead: Rest<'a>,
) -> Reading<'a, Statement>
    requires no_let { begins (of is_let) ahead.now ≡ false }
    requires callable { MayReadBelow (level.left + 1) (E.pre read.now) }
    requires reads { ReadsBelow level.pass (level.left + 1) (E.post read.now) }
    ensures { Answers statement_of result
        (making_at run_of (placed_at place (inside other_expr_at level.pass level.left tail))
        ahead.now) }
{
    let span = first_place(ahead)?;
    let (value, rest) = here(level, read, tail, ahead)?;
    Ok((Statement::Run { value, span }, rest))
}

/// A statement.
#[tactic(auto, unfolding(crate::specs::Readers::statement_at))]
pub fn statement<'a, E: Fn(u32, bool, Rest<'a>) -> Reading<'a, Expr>>(
    level: Level,
    read: &E,
    tail: bool,
    ahead: Rest<'a>,
) -> Reading<'a, Statement>
    requires callable { MayReadBelow (level.left + 1) (E.pre read.now) }
    requires reads { ReadsBelow level.pass (level.left + 1) (E.post read.now) }
    ensures { Answers statement_of result
        (inside statement_at level.pass level.left tail ahead.now) }
{
    if begins(Class::Let, ahead) {
        let_statement(level, read, tail, ahead)
    } else if begins_bind(ahead) {
        binding(level, read, ahead)
    } else {
        run(level, read, tail, ahead)
    }
}
