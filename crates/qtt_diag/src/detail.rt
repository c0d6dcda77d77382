//! What is told of each kind of refusal.

ghost use Rattle.std.specs.Prelude.{◌≡◌, map, OnOk};
ghost use Rattle.qtt_term.specs.Entries.{entries, prim_entries};
ghost use Rattle.qtt_term.specs.View.{term as term_of};
ghost use Rattle.qtt_core_print.specs.Printing.{behind_blank, behind_blanks};
ghost use Rattle.qtt_syntax.specs.View.{shape_of};
ghost use Rattle.qtt_diag.specs.Messages.{expected_found, sides};
ghost use Rattle.qtt_diag.specs.Patterns.{clause_text};
ghost use Rattle.qtt_diag.specs.Writing.{Adds, name_of, parts_of};

use crate::parts::{
    put_character, put_mults, put_name, put_name_or_blank, put_names, put_number, put_numbers,
    put_part, put_question, put_term, put_whole_name,
};
use crate::patterns::put_patterns;
use qtt_base::{MemoryError, Name};
use qtt_core_print::last_part;
use qtt_rules::Detail;
use qtt_syntax::Pattern;
use qtt_term::{Globals, Term};
use std::alloc::Global;

/// The name of a refusal's kind.
pub fn kind_name(detail: &Detail) -> &'static str
    ensures { result.now ≡ name_of prim_entries detail.now }
{
    match detail {
        Detail::NotUtf8 => "NotUtf8",
        Detail::BadCharacter { .. } => "BadCharacter",
        Detail::OpenText => "OpenText",
        Detail::OpenComment => "OpenComment",
        Detail::NumberTooWide => "NumberTooWide",
        Detail::NameTooLong => "NameTooLong",
        Detail::BadIndent => "BadIndent",
        Detail::Unexpected { .. } => "Unexpected",
        Detail::TooDeep => "TooDeep",
        Detail::Unbound { .. } => "Unbound",
        Detail::Ambiguous { .. } => "Ambiguous",
        Detail::Duplicate { .. } => "Duplicate",
        Detail::NotPositive { .. } => "NotPositive",
        Detail::NeedsType => "NeedsType",
        Detail::NotAFunction { .. } => "NotAFunction",
        Detail::TypeMismatch { .. } => "TypeMismatch",
        Detail::WrongQuantity { .. } => "WrongQuantity",
        Detail::WrongUsage { .. } => "WrongUsage",
        Detail::NotAType { .. } => "NotAType",
        Detail::WrongLevel { .. } => "WrongLevel",
        Detail::WrongArity { .. } => "WrongArity",
        Detail::NotAFamily { .. } => "NotAFamily",
        Detail::ErasedUse { .. } => "ErasedUse",
        Detail::BudgetSpent { .. } => "BudgetSpent",
        Detail::PatternStuck { .. } => "PatternStuck",
        Detail::DotMismatch { .. } => "DotMismatch",
        Detail::ErasedMatch { .. } => "ErasedMatch",
        Detail::Missing { .. } => "Missing",
        Detail::NoClauses { .. } => "NoClauses",
        Detail::WrongMain => "WrongMain",
        Detail::Limit { .. } => "Limit",
        Detail::WrongModuleName { .. } => "WrongModuleName",
        Detail::Cycle { .. } => "Cycle",
        Detail::Unsolved { .. } => "Unsolved",
        Detail::NotAnAction { .. } => "NotAnAction",
        Detail::Unreachable { .. } => "Unreachable",
        Detail::HasHoles { .. } => "HasHoles",
        Detail::CoreRefused { .. } => "CoreRefused",
    }
}

/// What a refusal keeps, part by part.
pub fn put_detail(
    alloc: Global,
    out: &mut Vec<u8>,
    names: &Globals,
    detail: &Detail,
) -> Result<(), MemoryError>
    ensures { OnOk result (Adds out.old out.new
        (behind_blanks (parts_of (entries names.now) detail.now))) }
{
    match detail {
        Detail::BadCharacter { character } => put_character(alloc, out, *character),
        Detail::Unexpected { word } => put_part(out, word),
        Detail::Unbound { name } | Detail::Ambiguous { name } | Detail::Duplicate { name } => {
            put_whole_name(out, name)
        }
        Detail::NotPositive { constructor, field } => {
            put_name(out, constructor)?;
            put_number(out, *field as u64)
        }
        Detail::NotAFunction { depth, ty }
        | Detail::NotAType { depth, ty }
        | Detail::NotAFamily { depth, ty }
        | Detail::NotAnAction { depth, ty } => put_term(alloc, out, names, *depth, ty),
        Detail::ErasedUse { depth, core } => put_term(alloc, out, names, *depth, core),
        Detail::TypeMismatch {
            depth,
            expected,
            found,
        }
        | Detail::DotMismatch {
            depth,
            expected,
            found,
        } => put_sides(alloc, out, names, *depth, expected, found),
        Detail::WrongQuantity { expected, found } => {
            put_mults(out, "expected", *expected, "found", *found)
        }
        Detail::WrongUsage {
            name,
            declared,
            used,
        } => {
            put_name_or_blank(out, name)?;
            put_mults(out, "declared", *declared, "used", *used)
        }
        Detail::WrongLevel { declared, found } => {
            put_numbers(out, "declared", *declared as u64, "found", *found as u64)
        }
        Detail::WrongArity { expected, found } => {
            put_numbers(out, "expected", *expected, "found", *found)
        }
        Detail::BudgetSpent { budget, question } => {
            put_number(out, *budget)?;
            put_question(alloc, out, names, question)
        }
        Detail::PatternStuck { depth, left, right } => {
            put_term(alloc, out, names, *depth, left)?;
            put_part(out, b"=")?;
            put_term(alloc, out, names, *depth, right)
        }
        Detail::ErasedMatch { name } => put_name_or_blank(out, name),
        Detail::Missing {
            definition,
            patterns,
        } => put_clause(out, definition, patterns),
        Detail::NoClauses { name } | Detail::CoreRefused { name } => put_name(out, name),
        Detail::Unreachable { definition } => put_name(out, definition),
        Detail::Unsolved { binder } => put_name(out, binder),
        Detail::Limit { quantity, count } => {
            put_part(out, quantity.words().as_bytes())?;
            put_number(out, *count)
        }
        Detail::WrongModuleName { expected, found } => put_module_names(out, expected, found),
        Detail::Cycle { modules } => put_names(out, modules),
        Detail::HasHoles { names } => put_names(out, names),
        Detail::NotUtf8
        | Detail::OpenText
        | Detail::OpenComment
        | Detail::NumberTooWide
        | Detail::NameTooLong
        | Detail::BadIndent
        | Detail::TooDeep
        | Detail::NeedsType
        | Detail::WrongMain => Ok(()),
    }
}

/// The two sides of a premise.
fn put_sides(
    alloc: Global,
    out: &mut Vec<u8>,
    names: &Globals,
    depth: u32,
    expected: &Term,
    found: &Term,
) -> Result<(), MemoryError>
    ensures { OnOk result (Adds out.old out.new (behind_blanks
        (sides (entries names.now) depth (term_of expected.now) (term_of found.now)))) }
{
    put_part(out, b"expected")?;
    put_term(alloc, out, names, depth, expected)?;
    put_part(out, b"found")?;
    put_term(alloc, out, names, depth, found)
}

/// A definition, and patterns that no clause of it covers.
fn put_clause(out: &mut Vec<u8>, definition: &Name, patterns: &[Pattern]) -> Result<(), MemoryError>
    ensures { OnOk result (Adds out.old out.new
        (behind_blank (clause_text definition.now (map shape_of patterns.now)))) }
{
    put_part(out, last_part(definition.as_str().as_bytes()))?;
    put_patterns(out, patterns)
}

/// The module that was asked for, and the name of the one that was found.
fn put_module_names(out: &mut Vec<u8>, expected: &Name, found: &Name) -> Result<(), MemoryError>
    ensures { OnOk result (Adds out.old out.new (behind_blanks
        (expected_found expected.now found.now))) }
{
    put_part(out, b"expected")?;
    put_whole_name(out, expected)?;
    put_part(out, b"found")?;
    put_whole_name(out, found)
}
