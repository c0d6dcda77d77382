//! Terms and definitions.

ghost use Rattle.std.specs.Prelude.{◌≡◌, ◌+◌, IfOk, OnOk};
ghost use Rattle.qtt_term.specs.Items.{definition_entry};
ghost use Rattle.qtt_term.specs.View.{branches as branches_of, case as case_of, delete as delete_of, term as term_of, terms as terms_of};
ghost use Rattle.qtt_term.specs.Entries.{entries};
ghost use Rattle.qtt_core_print.specs.Printing.{binding, branch_text, definition_text, motive_text, text as text_of};
ghost use Rattle.qtt_core_print.specs.Writing.{Adds, arguments_text, braced_text, branches_text};

use crate::names::{put_constructor, put_definition, put_family};
use crate::words::{
    io_name, lead, put, put_at_mark, put_binder, put_binders, put_head, put_literal, put_mark,
    put_number, put_variable, put_where,
};
use qtt_base::{GlobalId, MemoryError};
use qtt_term::{Branch, Case, Definition, Delete, Globals, Term};
use qtt_usage::mult::Mult;
use std::alloc::Global;

/// The text of a term that stands behind `depth` binders.
pub fn print_core(
    alloc: Global,
    names: &Globals,
    depth: u32,
    t: &Term,
) -> Result<Vec<u8>, MemoryError>
    ensures { IfOk result (λ text. text.items ≡ text_of (entries names.now) depth
        (term_of t.now)) }
{
    let mut out = Vec::new(alloc);
    put_term(&mut out, names, depth as u64, t)?;
    Ok(out)
}

/// The line of a definition, without the byte that ends it: its name, its type, and its body
/// where it has one.
pub fn print_definition(
    alloc: Global,
    names: &Globals,
    definition: &Definition,
) -> Result<Vec<u8>, MemoryError>
    ensures { IfOk result (λ text. text.items ≡ definition_text (entries names.now)
        (definition_entry definition.now)) }
{
    let mut out = Vec::new(alloc);
    put_where(&mut out, definition.mult == Mult::Zero, b"0 ")?;
    put_definition(&mut out, names, definition.id)?;
    put(&mut out, b" : ")?;
    put_term(&mut out, names, 0, &definition.ty)?;
    if let Some(body) = &definition.body {
        put(&mut out, b" = ")?;
        put_term(&mut out, names, 0, body)?;
    }
    Ok(out)
}

#[cycle(printing)]
fn put_term(out: &mut Vec<u8>, names: &Globals, depth: u64, t: &Term) -> Result<(), MemoryError>
    ensures { OnOk result (Adds out.old out.new
        (text_of (entries names.now) depth (term_of t.now))) }
{
    match t {
        Term::Var(index) => put_variable(out, depth, *index),
        Term::Sort(level) => {
            put(out, b"Type ")?;
            put_number(out, *level as u64)
        }
        Term::Pi(mult, domain, codomain) => {
            put(out, b"(")?;
            put_binding(out, names, depth, *mult, domain)?;
            put(out, b" -> ")?;
            put_under(out, names, depth, 1, codomain)?;
            put(out, b")")
        }
        Term::Lam(mult, domain, body) => {
            put(out, b"(\\")?;
            put_binding(out, names, depth, *mult, domain)?;
            put(out, b" => ")?;
            put_under(out, names, depth, 1, body)?;
            put(out, b")")
        }
        Term::App(mult, function, argument) => {
            put(out, b"(")?;
            put_term(out, names, depth, function)?;
            put(out, b" ")?;
            put_at_mark(out, *mult)?;
            put_term(out, names, depth, argument)?;
            put(out, b")")
        }
        Term::Fam(id, arguments) => {
            let is_applied = !arguments.as_slice().is_empty();
            put_where(out, is_applied, b"(")?;
            put_family(out, names, *id)?;
            put_arguments(out, names, depth, arguments)?;
            put_where(out, is_applied, b")")
        }
        Term::Con(constructor, params, fields) => {
            let is_applied = !params.as_slice().is_empty() | !fields.as_slice().is_empty();
            put_where(out, is_applied, b"(")?;
            put_constructor(out, names, constructor.family, constructor.place as usize)?;
            put_braced(out, names, depth, params)?;
            put_arguments(out, names, depth, fields)?;
            put_where(out, is_applied, b")")
        }
        Term::Case(case) => put_case(out, names, depth, case),
        Term::Delete(delete) => put_delete(out, names, depth, delete),
        Term::Def(id) => put_definition(out, names, *id),
        Term::Lit(literal) => put_literal(out, literal),
        Term::IntTy => put(out, b"Int"),
        Term::StringTy => put(out, b"String"),
        Term::HandleTy => put(out, b"Handle"),
        Term::IoTy(kind, given) => {
            put(out, b"(")?;
            put(out, io_name(*kind))?;
            put(out, b" ")?;
            put_term(out, names, depth, given)?;
            put(out, b")")
        }
        Term::Prim(primitive, arguments) => {
            let is_applied = !arguments.as_slice().is_empty();
            put_where(out, is_applied, b"(")?;
            put(out, primitive.name().as_bytes())?;
            put_arguments(out, names, depth, arguments)?;
            put_where(out, is_applied, b")")
        }
        Term::Act(kind, types, arguments) => {
            let is_applied = !types.as_slice().is_empty() | !arguments.as_slice().is_empty();
            put_where(out, is_applied, b"(")?;
            put(out, kind.name().as_bytes())?;
            put_braced(out, names, depth, types)?;
            put_arguments(out, names, depth, arguments)?;
            put_where(out, is_applied, b")")
        }
        Term::Trap(ty) => {
            put(out, b"(trap ")?;
            put_term(out, names, depth, ty)?;
            put(out, b")")
        }
        Term::Tape(number) => {
            put(out, b"(tape ")?;
            put_number(out, *number as u64)?;
            put(out, b")")
        }
    }
}

/// A term behind so many further binders.
#[cycle(printing)]
fn put_under(
    out: &mut Vec<u8>,
    names: &Globals,
    depth: u64,
    binders: u64,
    t: &Term,
) -> Result<(), MemoryError>
    ensures { OnOk result (Adds out.old out.new
        (text_of (entries names.now) (binders + depth) (term_of t.now))) }
{
    let Some(inner) = depth.checked_add(binders) else {
        return Err(MemoryError);
    };
    put_term(out, names, inner, t)
}

/// The next binder, with its type.
#[cycle(printing)]
#[tactic(auto, unfolding(crate::specs::Printing::binding))]
fn put_binding(
    out: &mut Vec<u8>,
    names: &Globals,
    depth: u64,
    mult: Mult,
    domain: &Term,
) -> Result<(), MemoryError>
    ensures { OnOk result (Adds out.old out.new
        (binding depth mult (text_of (entries names.now) depth (term_of domain.now)))) }
{
    put(out, b"(")?;
    put_mark(out, mult)?;
    put_binder(out, depth)?;
    put(out, b" : ")?;
    put_term(out, names, depth, domain)?;
    put(out, b")")
}

#[cycle(printing)]
#[tactic(auto, unfolding(crate::specs::Writing::arguments_text))]
fn put_arguments(
    out: &mut Vec<u8>,
    names: &Globals,
    depth: u64,
    arguments: &[Term],
) -> Result<(), MemoryError>
    ensures { OnOk result (Adds out.old out.new
        (arguments_text (entries names.now) depth (terms_of arguments.now))) }
{
    for argument in arguments {
        put(out, b" ")?;
        put_term(out, names, depth, argument)?;
    }
    Ok(())
}

/// Parameters and type arguments.
#[cycle(printing)]
#[tactic(auto, unfolding(crate::specs::Writing::braced_text))]
fn put_braced(
    out: &mut Vec<u8>,
    names: &Globals,
    depth: u64,
    arguments: &[Term],
) -> Result<(), MemoryError>
    ensures { OnOk result (Adds out.old out.new
        (braced_text (entries names.now) depth (terms_of arguments.now))) }
{
    for argument in arguments {
        put(out, b" {")?;
        put_term(out, names, depth, argument)?;
        put(out, b"}")?;
    }
    Ok(())
}

#[cycle(printing)]
fn put_case(out: &mut Vec<u8>, names: &Globals, depth: u64, case: &Case) -> Result<(), MemoryError>
    ensures { OnOk result (Adds out.old out.new
        (text_of (entries names.now) depth (case_of case.now))) }
{
    put_head(out, b"case", case.mult)?;
    put_term(out, names, depth, &case.scrutinee)?;
    put_motive(out, names, depth, case.indices as u64 + 1, &case.motive)?;
    put(out, b" {")?;
    put_branches(out, names, depth, case.family, &case.branches)?;
    put(out, b" })")
}

/// The motive of a match, under so many binders.
#[cycle(printing)]
#[tactic(auto, unfolding(crate::specs::Printing::motive_text))]
fn put_motive(
    out: &mut Vec<u8>,
    names: &Globals,
    depth: u64,
    binders: u64,
    motive: &Term,
) -> Result<(), MemoryError>
    ensures { OnOk result (Adds out.old out.new (motive_text depth binders
        (text_of (entries names.now) (binders + depth) (term_of motive.now)))) }
{
    put(out, b" motive")?;
    put_binders(out, depth, binders)?;
    put(out, b" => ")?;
    put_under(out, names, depth, binders, motive)
}

#[cycle(printing)]
#[tactic(auto, unfolding(crate::specs::Writing::branches_text))]
fn put_branches(
    out: &mut Vec<u8>,
    names: &Globals,
    depth: u64,
    family: GlobalId,
    branches: &[Branch],
) -> Result<(), MemoryError>
    ensures { OnOk result (Adds out.old out.new
        (branches_text (entries names.now) depth family 0 (branches_of branches.now))) }
{
    for (place, branch) in branches.iter().enumerate() {
        put_branch(out, names, depth, family, place, branch)?;
    }
    Ok(())
}

/// The branch of the constructor at this place.
#[cycle(printing)]
fn put_branch(
    out: &mut Vec<u8>,
    names: &Globals,
    depth: u64,
    family: GlobalId,
    place: usize,
    branch: &Branch,
) -> Result<(), MemoryError>
    ensures { OnOk result (Adds out.old out.new (branch_text (entries names.now) depth family place
        branch.now.fields (text_of (entries names.now) (branch.now.fields + depth)
        (term_of branch.now.body)))) }
{
    let fields = branch.fields as u64;
    put(out, lead(place))?;
    put_constructor(out, names, family, place)?;
    put_binders(out, depth, fields)?;
    put(out, b" => ")?;
    put_under(out, names, depth, fields, &branch.body)
}

#[cycle(printing)]
fn put_delete(
    out: &mut Vec<u8>,
    names: &Globals,
    depth: u64,
    delete: &Delete,
) -> Result<(), MemoryError>
    ensures { OnOk result (Adds out.old out.new
        (text_of (entries names.now) depth (delete_of delete.now))) }
{
    put_head(out, b"delete", delete.mult)?;
    put_term(out, names, depth, &delete.scrutinee)?;
    put_motive(out, names, depth, 1, &delete.motive)?;
    put(out, b" {")?;
    put(out, b" ")?;
    put_term(out, names, depth, &delete.branch)?;
    put(out, b" })")
}
