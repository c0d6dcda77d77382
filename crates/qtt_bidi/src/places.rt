//! First tokens of expressions and of their parts.

ghost use Rattle.std.specs.Prelude.{◌≡◌, map};
ghost use Rattle.qtt_syntax.specs.Tree.{binders as binder_list, statements as statement_list};
ghost use Rattle.qtt_syntax.specs.View.{tree_of, argument_of, binder_of, statement_of};
ghost use Rattle.qtt_bidi.specs.Ends.{expression as expression_of, list_place};
ghost use Rattle.qtt_bidi.specs.Elaboration.{place, statement_place as place_of_statement, binder_name as name_of_binder, binder_place as place_of_binder, all_typed as are_typed, is_typed as has_type};

use qtt_base::Span;
use qtt_syntax::{Argument, Binder, Expr, Local, Statement};

/// The first token of an expression.
#[tactic(auto, using(qtt_syntax::proofs::Rows::rows))]
pub fn first_token(e: &Expr) -> Span
    ensures { result ≡ place (tree_of e.now) }
{
    match e {
        Expr::Name(named) => named.span,
        Expr::Number { span, .. } => *span,
        Expr::Text { span, .. } => *span,
        Expr::Type { span, .. } => *span,
        Expr::Hole { span, .. } => *span,
        Expr::The { span, .. } => *span,
        Expr::Apply { span, .. } => *span,
        Expr::Pi { span, .. } => *span,
        Expr::Lambda { span, .. } => *span,
        Expr::Let { span, .. } => *span,
        Expr::Do { span, .. } => *span,
    }
}

/// The first token of a statement.
#[tactic(auto, using(qtt_syntax::proofs::Rows::rows))]
pub fn statement_place(statement: &Statement) -> Span
    ensures { result ≡ place_of_statement (statement_of statement.now) }
{
    match statement {
        Statement::Bind { name, .. } => name.span,
        Statement::Let { span, .. } => *span,
        Statement::Run { span, .. } => *span,
    }
}

/// Whether every binder has a type.
pub fn all_typed(binders: &[Binder]) -> bool
    ensures { result ≡ are_typed (binder_list (map binder_of binders.now)) }
{
    match binders {
        [] => true,
        [first, rest @ ..] => is_typed(first) && all_typed(rest),
    }
}

#[tactic(auto, using(qtt_syntax::proofs::Rows::rows))]
fn is_typed(binder: &Binder) -> bool
    ensures { result ≡ has_type (binder_of binder.now) }
{
    match binder {
        Binder::Plain(_) => false,
        Binder::Typed { .. } => true,
    }
}

/// The name that a binder binds.
#[tactic(auto, using(qtt_syntax::proofs::Rows::rows))]
pub fn binder_name(binder: &Binder) -> &Local
    ensures { result.now ≡ name_of_binder (binder_of binder.now) }
{
    match binder {
        Binder::Plain(name) => name,
        Binder::Typed { name, .. } => name,
    }
}

/// The first token of a binder.
#[tactic(auto, using(qtt_syntax::proofs::Rows::rows))]
pub fn binder_place(binder: &Binder) -> Span
    ensures { result ≡ place_of_binder (binder_of binder.now) }
{
    match binder {
        Binder::Plain(name) => name.span,
        Binder::Typed { span, .. } => *span,
    }
}

/// The expression of an argument.
#[tactic(auto, using(qtt_syntax::proofs::Rows::rows))]
pub fn expression(argument: &Argument) -> &Expr
    ensures { tree_of result.now ≡ expression_of (argument_of argument.now) }
{
    match argument {
        Argument::Written(e) => e,
        Argument::Braced(e) => e,
        Argument::Inserted(e) => e,
    }
}

/// The first token of statements, of which there is one.
pub fn first_place(statements: &[Statement]) -> Span
    ensures { result ≡ list_place (statement_list (map statement_of statements.now)) }
{
    match statements {
        [] => Span {
            line: 0,
            col: 0,
            len: 0,
        },
        [first, ..] => statement_place(first),
    }
}
