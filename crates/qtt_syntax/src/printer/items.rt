//! The text of a module and of its items.

ghost use Rattle.std.specs.Prelude.{◌≡◌, map, IfOk, OnOk};
ghost use Rattle.qtt_syntax.specs.View.{param_of, con_of, item_of, module_of};
ghost use Rattle.qtt_syntax.specs.Printing.{params, cons, item, imports, items, printed};
ghost use Rattle.qtt_syntax.specs.Writing.{Adds};

use crate::module::{Clause, ConDecl, FamilyDecl, Import, Item, ModuleText, Param, SignatureDecl};
use crate::printer::expression::{put_binding, put_expr};
use crate::printer::forms::ends_open;
use crate::printer::patterns::put_patterns;
use crate::printer::words::{new_line, put, put_name, put_parted};
use qtt_base::MemoryError;
use std::alloc::Global;

/// The canonical text of a module: one item a line, with constructors and statements on lines of
/// their own, and brackets only where the tree needs them.
pub fn print(alloc: Global, text: &ModuleText) -> Result<Vec<u8>, MemoryError>
    ensures { IfOk result (λ bytes. bytes.items ≡ printed (module_of text.now)) }
{
    let mut out = Vec::new(alloc);
    put(&mut out, b"module ")?;
    put_name(&mut out, &text.name)?;
    put_imports(&mut out, &text.imports)?;
    put_items(&mut out, &text.items)?;
    put(&mut out, b"\n")?;
    Ok(out)
}

fn put_imports(out: &mut Vec<u8>, list: &[Import]) -> Result<(), MemoryError>
    ensures { OnOk result (Adds out.old out.new (imports list.now)) }
{
    for import in list {
        put(out, b"\nimport ")?;
        put_name(out, &import.name)?;
    }
    Ok(())
}

fn put_items(out: &mut Vec<u8>, list: &[Item]) -> Result<(), MemoryError>
    ensures { OnOk result (Adds out.old out.new (items (map item_of list.now))) }
{
    for item in list {
        put(out, b"\n")?;
        put_item(out, item)?;
    }
    Ok(())
}

fn put_item(out: &mut Vec<u8>, entry: &Item) -> Result<(), MemoryError>
    ensures { OnOk result (Adds out.old out.new (item (item_of entry.now))) }
{
    match entry {
        Item::Family(family) => put_family(out, family),
        Item::Signature(signature) => put_signature(out, signature),
        Item::Clause(clause) => put_clause(out, clause),
    }
}

fn put_family(out: &mut Vec<u8>, family: &FamilyDecl) -> Result<(), MemoryError>
    ensures { OnOk result (Adds out.old out.new (item (item_of (Item.Family family.now)))) }
{
    put(out, b"data ")?;
    put_name(out, &family.name)?;
    put_params(out, &family.params)?;
    put(out, b" : ")?;
    put_expr(out, 0, &family.ty)?;
    put_parted(out, 0, ends_open(&family.ty))?;
    put(out, b"where")?;
    put_constructors(out, &family.constructors)
}

/// Parameters, each behind a blank.
fn put_params(out: &mut Vec<u8>, list: &[Param]) -> Result<(), MemoryError>
    ensures { OnOk result (Adds out.old out.new (params (map param_of list.now))) }
{
    for param in list {
        put(out, b" (")?;
        put_binding(out, param.mult, &param.name)?;
        put_expr(out, 0, &param.ty)?;
        put(out, b")")?;
    }
    Ok(())
}

/// Constructors, each on its line.
fn put_constructors(out: &mut Vec<u8>, list: &[ConDecl]) -> Result<(), MemoryError>
    ensures { OnOk result (Adds out.old out.new (cons (map con_of list.now))) }
{
    for constructor in list {
        new_line(out, 2)?;
        put_name(out, &constructor.name)?;
        put(out, b" : ")?;
        put_expr(out, 2, &constructor.ty)?;
    }
    Ok(())
}

fn put_signature(out: &mut Vec<u8>, signature: &SignatureDecl) -> Result<(), MemoryError>
    ensures { OnOk result (Adds out.old out.new (item (item_of (Item.Signature signature.now)))) }
{
    if signature.partial {
        put(out, b"partial ")?;
    }
    put_binding(out, signature.mult, &signature.name)?;
    put_expr(out, 0, &signature.ty)
}

fn put_clause(out: &mut Vec<u8>, clause: &Clause) -> Result<(), MemoryError>
    ensures { OnOk result (Adds out.old out.new (item (item_of (Item.Clause clause.now)))) }
{
    put_name(out, &clause.name)?;
    put_patterns(out, &clause.patterns)?;
    put(out, b" = ")?;
    put_expr(out, 0, &clause.side)
}
