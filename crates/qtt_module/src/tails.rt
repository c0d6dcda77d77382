//! Holes in tail position.

ghost use Rattle.std.specs.Prelude.{◌≡◌};
ghost use Rattle.qtt_syntax.specs.Tree.Statements.{no_statement, statement_and};
ghost use Rattle.qtt_syntax.specs.View.{tree_of, statement_of};
ghost use Rattle.qtt_bidi.specs.Parts.{statement_trees};
ghost use Rattle.qtt_holes.specs.Walk.{has_hole as hole_in, ends_in_hole as hole_at_end};

use qtt_syntax::{Expr, Statement};

/// Whether an expression has a hole in tail position.
#[cycle(tail)]
#[tactic(auto, using(qtt_syntax::proofs::Rows::rows))]
pub fn has_hole(e: &Expr) -> bool
    ensures { result ≡ hole_in (tree_of e.now) }
{
    match e {
        Expr::Hole { .. } => true,
        Expr::Lambda { body, .. } => has_hole(body),
        Expr::Let { body, .. } => has_hole(body),
        Expr::Do { statements, .. } => ends_in_hole(statements),
        _ => false,
    }
}

/// Whether the last of these statements has one.
#[cycle(tail)]
fn ends_in_hole(statements: &[Statement]) -> bool
    ensures { result ≡ hole_at_end (statement_trees statements.now) }
{
    match statements {
        [] => false,
        [.., last] => is_hole(last),
    }
}

/// Whether a last statement has one.
#[cycle(tail)]
fn is_hole(statement: &Statement) -> bool
    ensures { result ≡ hole_at_end (statement_and (statement_of statement.now) no_statement) }
{
    match statement {
        Statement::Run { value, .. } => has_hole(value),
        Statement::Bind { .. } | Statement::Let { .. } => false,
    }
}
