//! Where brackets and line breaks are wanted.

ghost use Rattle.std.specs.Prelude.{◌≡◌, map};
ghost use Rattle.qtt_syntax.specs.Tree.{arguments};
ghost use Rattle.qtt_syntax.specs.View.{tree_of, argument_of, written_type};
ghost use Rattle.qtt_syntax.specs.Printing.{is_number, is_atom, is_app, number_first, is_level_0, ends_open, annotation_open, is_negative, app_negative, is_arrow, begins_negative};

use crate::expr::{Argument, Expr, Mark};
use qtt_base::Name;
use qtt_usage::mult::Mult;

pub fn is_number(tree: &Expr) -> bool
    ensures { result ≡ is_number (tree_of tree.now) }
{
    matches!(tree, Expr::Number { .. })
}

/// A tree that is an atom without brackets.
pub fn is_atom(tree: &Expr) -> bool
    ensures { result ≡ is_atom (tree_of tree.now) }
{
    match tree {
        Expr::Name(_) | Expr::Number { .. } | Expr::Text { .. } | Expr::Type { .. } => true,
        _ => false,
    }
}

/// A tree that may stand before an arrow without brackets.
pub fn is_app(tree: &Expr) -> bool
    ensures { result ≡ is_app (tree_of tree.now) }
{
    match tree {
        Expr::The { .. } | Expr::Apply { .. } => true,
        _ => is_atom(tree),
    }
}

pub fn number_first(list: &[Argument]) -> bool
    ensures { result ≡ number_first (arguments (map argument_of list.now)) }
{
    match list {
        [Argument::Written(tree), ..] => is_number(tree),
        _ => false,
    }
}

pub fn is_level_0(tree: &Expr) -> bool
    ensures { result ≡ is_level_0 (tree_of tree.now) }
{
    matches!(tree, Expr::Type { level: 0, .. })
}

/// A `do` ends with the expression.
pub fn ends_open(tree: &Expr) -> bool
    ensures { result ≡ ends_open (tree_of tree.now) }
{
    match tree {
        Expr::Do { .. } => true,
        Expr::Lambda { body, .. } | Expr::Let { body, .. } => ends_open(body),
        Expr::Pi { codomain, .. } => ends_open(codomain),
        _ => false,
    }
}

pub fn annotation_open(ty: &Option<Box<Expr>>) -> bool
    ensures { result ≡ annotation_open (written_type ty.now) }
{
    match ty {
        Some(ty) => ends_open(ty),
        None => false,
    }
}

fn is_negative(tree: &Expr) -> bool
    ensures { result ≡ is_negative (tree_of tree.now) }
{
    match tree {
        Expr::Number { value, .. } => *value < 0,
        _ => false,
    }
}

fn app_negative(tree: &Expr) -> bool
    ensures { result ≡ app_negative (tree_of tree.now) }
{
    match tree {
        Expr::Apply { function, .. } => is_negative(function),
        _ => is_negative(tree),
    }
}

/// A function type without a name for its argument.
pub fn is_arrow(mark: Mark, mult: Mult, name: &Name) -> bool
    ensures { result ≡ is_arrow mark mult name.now }
{
    match (mark, mult) {
        (Mark::Written, Mult::Many) => name.as_str() == "_",
        _ => false,
    }
}

/// The first token of the expression is a negative number.
pub fn begins_negative(tree: &Expr) -> bool
    ensures { result ≡ begins_negative (tree_of tree.now) }
{
    match tree {
        Expr::Pi {
            mark,
            mult,
            name,
            domain,
            ..
        } => is_arrow(*mark, *mult, name) && app_negative(domain),
        _ => app_negative(tree),
    }
}
