//! The text of an expression. `blanks` stand before the column of the enclosing block.

ghost use Rattle.std.specs.Prelude.{[], map, OnOk};
ghost use Rattle.qtt_syntax.specs.Tree.{arguments, binders, statements};
ghost use Rattle.qtt_syntax.specs.View.{tree_of, argument_of, binder_of, statement_of, written_type};
ghost use Rattle.qtt_syntax.specs.Printing as text;
ghost use Rattle.qtt_syntax.specs.Writing.{Adds};

use crate::expr::{Argument, Binder, Expr, Mark, Statement};
use crate::printer::forms::{
    annotation_open, begins_negative, ends_open, is_app, is_arrow, is_atom, is_level_0, is_number,
    number_first,
};
use crate::printer::words::{
    new_line, put, put_broken, put_mark, put_name, put_number, put_parted, put_text, put_type,
};
use qtt_base::{MemoryError, Name};
use qtt_usage::mult::Mult;

/// What stands in a binder before its type.
pub fn put_binding(out: &mut Vec<u8>, mult: Mult, name: &Name) -> Result<(), MemoryError>
    ensures { OnOk result (Adds out.old out.new (text.binding mult name.now [])) }
{
    put_mark(out, mult)?;
    put_name(out, name)?;
    put(out, b" : ")
}

/// What stands between `let` and the type.
fn put_let(out: &mut Vec<u8>, mult: Mult, name: &Name) -> Result<(), MemoryError>
    ensures { OnOk result (Adds out.old out.new (text.let_name mult name.now)) }
{
    put(out, b"let ")?;
    put_mark(out, mult)?;
    put_name(out, name)
}

#[cycle(printing)]
pub fn put_expr(out: &mut Vec<u8>, blanks: usize, tree: &Expr) -> Result<(), MemoryError>
    ensures { OnOk result (Adds out.old out.new (text.expr blanks (tree_of tree.now))) }
{
    match tree {
        Expr::Name(named) => put_name(out, &named.path),
        Expr::Number { value, .. } => put_number(out, *value),
        Expr::Text { value, .. } => put_text(out, value),
        Expr::Type { level, .. } => put_type(out, *level),
        Expr::Hole { name, .. } => {
            put(out, b"?")?;
            put_name(out, name)
        }
        Expr::The { ty, value, .. } => {
            put(out, b"the ")?;
            put_atom(out, blanks, ty, is_number(value))?;
            put(out, b" ")?;
            put_atom(out, blanks, value, false)
        }
        Expr::Apply {
            function,
            arguments,
            ..
        } => {
            put_atom(out, blanks, function, number_first(arguments))?;
            put_arguments(out, blanks, arguments)
        }
        Expr::Pi {
            mark,
            mult,
            name,
            domain,
            codomain,
            ..
        } => {
            put_domain(out, blanks, domain, *mark, *mult, name)?;
            put(out, b" -> ")?;
            put_expr(out, blanks, codomain)
        }
        Expr::Lambda { binders, body, .. } => {
            put(out, b"\\")?;
            put_binders(out, blanks, binders)?;
            put(out, b"=> ")?;
            put_expr(out, blanks, body)
        }
        Expr::Let {
            mult,
            name,
            ty,
            value,
            body,
            ..
        } => {
            put_let(out, *mult, &name.name)?;
            put_annotation(out, blanks, ty)?;
            put_parted(out, blanks, annotation_open(ty))?;
            put(out, b"= ")?;
            put_expr(out, blanks, value)?;
            put_parted(out, blanks, ends_open(value))?;
            put(out, b"in ")?;
            put_expr(out, blanks, body)
        }
        Expr::Do { statements, .. } => {
            let Some(inner) = blanks.checked_add(2) else {
                return Err(MemoryError);
            };
            put(out, b"do")?;
            put_statements(out, inner, statements)
        }
    }
}

/// An atom; `number_follows` says that a number stands behind it.
#[cycle(printing)]
fn put_atom(
    out: &mut Vec<u8>,
    blanks: usize,
    tree: &Expr,
    number_follows: bool,
) -> Result<(), MemoryError>
    ensures { OnOk result (Adds out.old out.new
        (text.atom number_follows (tree_of tree.now) (text.expr blanks (tree_of tree.now)))) }
{
    if number_follows && is_level_0(tree) {
        return put(out, b"Type 0");
    }
    if is_atom(tree) {
        return put_expr(out, blanks, tree);
    }
    put(out, b"(")?;
    put_expr(out, blanks, tree)?;
    put(out, b")")
}

/// What stands before an arrow.
#[cycle(printing)]
fn put_domain(
    out: &mut Vec<u8>,
    blanks: usize,
    tree: &Expr,
    mark: Mark,
    mult: Mult,
    name: &Name,
) -> Result<(), MemoryError>
    ensures { OnOk result (Adds out.old out.new
        (text.domain blanks mark mult name.now (tree_of tree.now)
        (text.expr blanks (tree_of tree.now)))) }
{
    if is_arrow(mark, mult, name) {
        if is_app(tree) {
            return put_expr(out, blanks, tree);
        }
        put(out, b"(")?;
        put_expr(out, blanks, tree)?;
        return put(out, b")");
    }
    match mark {
        Mark::Written => {
            put(out, b"(")?;
            put_binding(out, mult, name)?;
            put_expr(out, blanks, tree)?;
            put(out, b")")
        }
        Mark::Braced | Mark::Inserted => {
            put(out, b"{")?;
            put_binding(out, mult, name)?;
            put_expr(out, blanks, tree)?;
            put_broken(out, blanks, ends_open(tree))?;
            put(out, b"}")
        }
    }
}

/// A type that may be written, behind ` : `.
#[cycle(printing)]
fn put_annotation(
    out: &mut Vec<u8>,
    blanks: usize,
    ty: &Option<Box<Expr>>,
) -> Result<(), MemoryError>
    ensures { OnOk result (Adds out.old out.new (text.annotation blanks (written_type ty.now))) }
{
    match ty {
        None => Ok(()),
        Some(ty) => {
            put(out, b" : ")?;
            put_expr(out, blanks, ty)
        }
    }
}

/// Arguments, each behind a blank.
#[cycle(printing)]
fn put_arguments(out: &mut Vec<u8>, blanks: usize, list: &[Argument]) -> Result<(), MemoryError>
    ensures { OnOk result (Adds out.old out.new
        (text.arguments blanks (arguments (map argument_of list.now)))) }
{
    for (i, argument) in list.iter().enumerate() {
        put(out, b" ")?;
        put_argument(out, blanks, argument, number_first(&list[i + 1..]))?;
    }
    Ok(())
}

#[cycle(printing)]
fn put_argument(
    out: &mut Vec<u8>,
    blanks: usize,
    argument: &Argument,
    number_follows: bool,
) -> Result<(), MemoryError>
    ensures { OnOk result (Adds out.old out.new
        (text.argument_words blanks number_follows (argument_of argument.now))) }
{
    match argument {
        Argument::Written(tree) => put_atom(out, blanks, tree, number_follows),
        Argument::Braced(tree) | Argument::Inserted(tree) => {
            put(out, b"{")?;
            if begins_negative(tree) {
                put(out, b" ")?;
            }
            put_expr(out, blanks, tree)?;
            put_broken(out, blanks, ends_open(tree))?;
            put(out, b"}")
        }
    }
}

/// Binders of a `\`, each with a blank behind it.
#[cycle(printing)]
fn put_binders(out: &mut Vec<u8>, blanks: usize, list: &[Binder]) -> Result<(), MemoryError>
    ensures { OnOk result (Adds out.old out.new
        (text.binders blanks (binders (map binder_of list.now)))) }
{
    for binder in list {
        match binder {
            Binder::Plain(local) => put_name(out, &local.name)?,
            Binder::Typed { mult, name, ty, .. } => {
                put(out, b"(")?;
                put_binding(out, *mult, &name.name)?;
                put_expr(out, blanks, ty)?;
                put(out, b")")?;
            }
        }
        put(out, b" ")?;
    }
    Ok(())
}

/// Statements, each on its line.
#[cycle(printing)]
fn put_statements(out: &mut Vec<u8>, blanks: usize, list: &[Statement]) -> Result<(), MemoryError>
    ensures { OnOk result (Adds out.old out.new
        (text.statements blanks (statements (map statement_of list.now)))) }
{
    for statement in list {
        new_line(out, blanks)?;
        put_statement(out, blanks, statement)?;
    }
    Ok(())
}

#[cycle(printing)]
fn put_statement(out: &mut Vec<u8>, blanks: usize, statement: &Statement) -> Result<(), MemoryError>
    ensures { OnOk result (Adds out.old out.new
        (text.statement blanks (statement_of statement.now))) }
{
    match statement {
        Statement::Bind { name, value } => {
            put_name(out, &name.name)?;
            put(out, b" <- ")?;
            put_expr(out, blanks, value)
        }
        Statement::Let {
            mult,
            name,
            ty,
            value,
            ..
        } => {
            put_let(out, *mult, &name.name)?;
            put_annotation(out, blanks, ty)?;
            put_parted(out, blanks, annotation_open(ty))?;
            put(out, b"= ")?;
            put_expr(out, blanks, value)
        }
        Statement::Run { value, .. } => put_expr(out, blanks, value),
    }
}
