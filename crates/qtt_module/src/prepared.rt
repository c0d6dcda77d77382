//! The text of a module before its items are judged.

ghost use Rattle.std.specs.Prelude.{◌≡◌, Result, Err, map};
ghost use Rattle.qtt_syntax.specs.View.{module_of};
ghost use Rattle.qtt_names.specs.Exports.{exports_of};
ghost use Rattle.qtt_names.specs.View.{seen};
ghost use Rattle.qtt_implicit.specs.Answering.{filled_text_of, IsRefusal};
ghost use Rattle.qtt_implicit.specs.Filled.{FilledText as FilledSeen, Refusal as FillingRefusal};
ghost use Rattle.qtt_term.specs.declared.rule.Rule.TheVariants.{Names};
ghost use Rattle.qtt_diag.specs.Kept.{detail as detail_of};
ghost use Rattle.qtt_module.specs.Answer.{Gives, Says};
ghost use Rattle.qtt_module.specs.Prepared.{filled_in as filled_by, has_name as named_so, is_asked as asked_for, looked_up, named as named_by, prepared as prepared_by};
ghost use Rattle.qtt_module.specs.Refused.{plain as plain_one};

use crate::errors::ModuleError;
use crate::refusals::plain;
use qtt_base::{Fault, MemoryError, ModuleId, Name, Quantity, Span};
use qtt_diag::fault_detail;
use qtt_implicit::{FilledText, ImplicitError, fill};
use qtt_names::{Exports, NamesError, Scope, resolve};
use qtt_rules::Detail;
use qtt_syntax::ModuleText;
use qtt_term::Rule;
use std::alloc::Global;

fn is_asked(asked: &str, name: &str) -> bool
    ensures { result ≡ asked_for asked.now name.now }
{
    name == asked && name != "Prim"
}

/// The header has the name by which the text was asked for, which is not Prim.
fn has_name(alloc: Global, asked: &Name, text: &ModuleText) -> Result<(), ModuleError>
    ensures { Gives (λ u. u) result (named_so asked.now (module_of text.now)) }
{
    if is_asked(asked.as_str(), text.name.as_str()) {
        return Ok(());
    }
    let detail = Detail::WrongModuleName {
        expected: asked.copy()?,
        found: text.name.copy()?,
    };
    let refusal = plain(alloc, Rule::Text, asked, text.name_span, detail)?;
    Err(ModuleError::Refused(refusal))
}

/// The refusal of a text's names, or of its implicit arguments.
fn names_refused(alloc: Global, module: &Name, span: Span, detail: Detail) -> ModuleError
    ensures { Says (plain_one Names «module».now span (detail_of detail)) result }
{
    match plain(alloc, Rule::Names, module, span, detail) {
        Ok(refusal) => ModuleError::Refused(refusal),
        Err(MemoryError) => ModuleError::Memory,
    }
}

/// Why a text with such a fault of names is refused. A word that is no name, which no fault of
/// names has, is answered as want of memory.
fn wrong_names(alloc: Global, module: &Name, fault: Fault) -> ModuleError
    ensures { Gives module_of (Err result) (looked_up «module».now (Err (seen fault))) }
{
    let span = fault.span;
    match fault_detail(alloc, fault) {
        Ok(Some(detail)) => names_refused(alloc, module, span, detail),
        Ok(None) | Err(MemoryError) => ModuleError::Memory,
    }
}

/// The text with what its names stand for.
fn named(
    alloc: Global,
    module: ModuleId,
    imports: &[Exports],
    text: &ModuleText,
) -> Result<ModuleText, ModuleError>
    ensures { Gives module_of result
        (named_by «module» (map exports_of imports.now) (module_of text.now)) }
{
    let scope = Scope::new(alloc, module, text, imports)?;
    match resolve(alloc, text, &scope) {
        Ok(named) => Ok(named),
        Err(NamesError::Fault(fault)) => Err(wrong_names(alloc, &text.name, fault)),
        Err(NamesError::Memory) => Err(ModuleError::Memory),
    }
}

/// Why a text of these implicit arguments is refused.
fn not_filled(alloc: Global, module: &Name, error: ImplicitError) -> ModuleError
    ensures { (o : Result FilledSeen FillingRefusal) → IsRefusal error o →
        Gives filled_text_of (Err result) (filled_by «module».now o) }
{
    match error {
        ImplicitError::Unsolved(binder, span) => {
            names_refused(alloc, module, span, Detail::Unsolved { binder })
        }
        ImplicitError::Braces(most, found, span) => {
            let detail = Detail::WrongArity {
                expected: u64::from(most),
                found: u64::from(found),
            };
            names_refused(alloc, module, span, detail)
        }
        ImplicitError::TooLarge(count, span) => {
            let detail = Detail::Limit {
                quantity: Quantity::FilledNodes,
                count: u64::from(count),
            };
            names_refused(alloc, module, span, detail)
        }
        ImplicitError::Memory => ModuleError::Memory,
    }
}

/// The text with what its names stand for and what is filled in.
pub fn prepared(
    alloc: Global,
    module: ModuleId,
    asked: &Name,
    imports: &[Exports],
    text: &ModuleText,
) -> Result<FilledText, ModuleError>
    ensures { Gives filled_text_of result
        (prepared_by «module» asked.now (map exports_of imports.now) (module_of text.now)) }
{
    has_name(alloc, asked, text)?;
    let named = named(alloc, module, imports, text)?;
    match fill(alloc, module, &named, imports) {
        Ok(filled) => Ok(filled),
        Err(error) => Err(not_filled(alloc, &text.name, error)),
    }
}
