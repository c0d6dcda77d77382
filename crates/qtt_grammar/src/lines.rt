//! The statements of a block.

ghost use Rattle.std.specs.Prelude.{◌≡◌, ◌<◌, ◌&&◌, [], ◌∷◌, nat_lt, map};
ghost use Rattle.qtt_phrase.specs.Reading.{making_at, cap_at, begins, ended};
ghost use Rattle.qtt_syntax.specs.Tree as tree;
ghost use Rattle.qtt_syntax.specs.View.{tree_of, statement_of};
ghost use Rattle.qtt_grammar.specs.Classes.{is_next};
ghost use Rattle.qtt_grammar.specs.Grammar.{of, ends_in_hole, statement_in_hole, standing_of, may_go, may_end};
ghost use Rattle.qtt_grammar.specs.Limits.{one_above};
ghost use Rattle.qtt_grammar.specs.Readers.{statement_starts, bad_start, line_at, block_at, lines_at, doing_at};
ghost use Rattle.qtt_grammar.specs.View.{Answers, Fails, inside, with_front, both, MayReadBelow, ReadsBelow};

use crate::block::statement;
use crate::class::{Class, Standing};
use crate::count::one_above;
use crate::level::Level;
use crate::stop::{Reason, Stop};
use crate::token::{Reading, Rest, begins, opener, symbol};
use qtt_base::Quantity;
use qtt_syntax::{Expr, Statement};

// A hole stands in tail position.
#[cycle(hole)]
fn ends_in_hole(expr: &Expr) -> bool
    ensures { result ≡ ends_in_hole (tree_of expr.now) }
{
    match expr {
        Expr::Hole { .. } => true,
        Expr::Lambda { body, .. } => ends_in_hole(body),
        Expr::Let { body, .. } => ends_in_hole(body),
        Expr::Do { statements, .. } => match statements.last() {
            Some(last) => is_in_hole(last),
            None => false,
        },
        _ => false,
    }
}

#[cycle(hole)]
fn is_in_hole(statement: &Statement) -> bool
    ensures { result ≡ statement_in_hole (statement_of statement.now) }
{
    match statement {
        Statement::Run { value, .. } => ends_in_hole(value),
        Statement::Bind { .. } => false,
        Statement::Let { .. } => false,
    }
}

fn standing_of(statement: &Statement) -> Standing
    ensures { result ≡ standing_of (statement_of statement.now) }
{
    match statement {
        Statement::Run { value, .. } if ends_in_hole(value) => Standing::Last,
        Statement::Run { .. } => Standing::Within,
        _ => Standing::Before,
    }
}

// Why no other statement is read where as many as may be stand before.
fn no_more<'a>(level: Level, tail: bool, ahead: Rest<'a>) -> Stop<'a>
    ensures { Fails {A = tree.Statement} result
        (cap_at (λ x. statement_starts (nat_lt 0 level.left) tail x.class)
        (λ x. bad_start (nat_lt 0 level.left) x.class)
        (λ x. one_above Quantity.Statements x.place) ahead.now) }
{
    match ahead {
        [first, rest @ ..] if first.class.starts_statement(level.left > 0, tail) => {
            Stop::Over(one_above(Quantity::Statements, first.place), rest)
        }
        [first, ..] if level.left == 0 && first.class.opens_statement() => {
            Stop::Bad(Reason::TooDeep, ahead)
        }
        _ => Stop::Bad(Reason::Unexpected, ahead),
    }
}

/// Another statement, before which there are so many.
#[tactic(auto, using(crate::proofs::Below::below_is, crate::proofs::Below::level_is), unfolding(crate::specs::Readers::line_at))]
pub fn line<'a, E: Fn(u32, bool, Rest<'a>) -> Reading<'a, Expr>>(
    level: Level,
    read: &E,
    tail: bool,
    count: usize,
    standing: Standing,
    ahead: Rest<'a>,
) -> Reading<'a, Statement>
    requires may { 0 < level.left }
    requires callable { MayReadBelow level.left (E.pre read.now) }
    requires reads { ReadsBelow level.pass level.left (E.post read.now) }
    ensures { Answers statement_of result
        (inside line_at level.pass level.left tail (count, standing) ahead.now) }
{
    let (_, rest) = symbol(Class::Next, ahead)?;
    if level.pass.is_full(Quantity::Statements, count) {
        return Err(no_more(level.below(), tail, rest));
    }
    statement(level.below(), read, tail, rest)
}

// Whether another statement comes.
fn goes_on(standing: Standing, ahead: Rest<'_>) -> bool
    ensures { result ≡ (may_go (0, standing) && begins (of is_next) ahead.now) }
{
    match standing {
        Standing::Last => false,
        Standing::Before | Standing::Within => begins(Class::Next, ahead),
    }
}

// The statements that were found, where the last of them may end the block.
fn ended<'a>(
    found: Vec<Statement>,
    standing: Standing,
    ahead: Rest<'a>,
) -> Reading<'a, Vec<Statement>>
    ensures { Answers (λ v. map statement_of v.items) result
        (with_front (map statement_of found.items) (ended (may_end (0, standing)) ahead.now)) }
{
    match standing {
        Standing::Before => Err(Stop::Bad(Reason::Unexpected, ahead)),
        Standing::Within | Standing::Last => Ok((found, ahead)),
    }
}

/// The statements behind the first one.
#[tactic(auto, unfolding(crate::specs::Readers::lines_at))]
pub fn lines<'a, E: Fn(u32, bool, Rest<'a>) -> Reading<'a, Expr>>(
    level: Level,
    read: &E,
    tail: bool,
    first: Statement,
    ahead: Rest<'a>,
) -> Reading<'a, Vec<Statement>>
    requires may { 0 < level.left }
    requires callable { MayReadBelow level.left (E.pre read.now) }
    requires reads { ReadsBelow level.pass level.left (E.post read.now) }
    ensures { Answers (λ v. map statement_of v.items) result
        (with_front (statement_of first ∷ [])
        (inside lines_at level.pass level.left tail (1, standing_of (statement_of first))
        ahead.now)) }
{
    let mut standing = standing_of(&first);
    let mut found = Vec::new(level.alloc);
    found.push(first)?;
    let mut rest = ahead;
    'lines: for _ in 0..ahead.len() {
        if !goes_on(standing, rest) {
            return ended(found, standing, rest);
        }
        let (one, after) = line(level, read, tail, found.len(), standing, rest)?;
        standing = standing_of(&one);
        found.push(one)?;
        rest = after;
    }
    ended(found, standing, rest)
}

/// The statements of a block.
#[tactic(auto, using(crate::proofs::Below::below_is, crate::proofs::Below::level_is))]
pub fn statements<'a, E: Fn(u32, bool, Rest<'a>) -> Reading<'a, Expr>>(
    level: Level,
    read: &E,
    tail: bool,
    ahead: Rest<'a>,
) -> Reading<'a, Vec<Statement>>
    requires may { 0 < level.left }
    requires callable { MayReadBelow level.left (E.pre read.now) }
    requires reads { ReadsBelow level.pass level.left (E.post read.now) }
    ensures { Answers (λ v. map statement_of v.items) result
        (making_at both (inside block_at level.pass level.left tail) ahead.now) }
{
    let (first, rest) = statement(level.below(), read, tail, ahead)?;
    lines(level, read, tail, first, rest)
}

/// `do` and its block.
#[tactic(auto, unfolding(crate::specs::Readers::doing_at))]
pub fn doing<'a, E: Fn(u32, bool, Rest<'a>) -> Reading<'a, Expr>>(
    level: Level,
    read: &E,
    tail: bool,
    ahead: Rest<'a>,
) -> Reading<'a, Expr>
    requires callable { MayReadBelow level.left (E.pre read.now) }
    requires reads { ReadsBelow level.pass level.left (E.post read.now) }
    ensures { Answers tree_of result (inside doing_at level.pass level.left tail ahead.now) }
{
    let (span, rest) = opener(Class::Do, level.left, ahead)?;
    let (_, rest) = symbol(Class::Open, rest)?;
    let (statements, rest) = statements(level, read, tail, rest)?;
    let (_, rest) = symbol(Class::Close, rest)?;
    Ok((Expr::Do { statements, span }, rest))
}
