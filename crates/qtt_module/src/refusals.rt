//! Refusals of modules.

ghost use Rattle.std.specs.Prelude.{◌≡◌, IfOk};
ghost use Rattle.qtt_term.specs.Entries.{entries, prim_entries};
ghost use Rattle.qtt_diag.specs.Kept.{detail as detail_of};
ghost use Rattle.qtt_module.specs.Refused.{keeps_terms as has_terms, names_for as names_of, plain as plain_one, refused_of};
ghost use Rattle.qtt_module.specs.Answer.{Tells};

use crate::errors::ModuleError;
use qtt_base::{MemoryError, Name, Span};
use qtt_diag::laws::kinds_agree;
use qtt_rules::{Detail, ElabError, Refusal};
use qtt_term::{Globals, Rule};
use std::alloc::Global;

/// The module that is refused, and the names with which its refusal is printed.
#[derive(Drop)]
struct Teller {
    module: Name,
    names: Globals,
}

/// With the names of Prim.
fn told_plainly(alloc: Global, module: &Name) -> Result<Teller, MemoryError>
    ensures { IfOk result (λ t. (t.«module» ≡ «module».now) × (entries t.names ≡ prim_entries)) }
{
    let module = module.copy()?;
    Ok(Teller {
        module,
        names: Globals::prim(alloc)?,
    })
}

/// The refusal of a text or of its names, of which no term is kept.
pub fn plain(
    alloc: Global,
    rule: Rule,
    module: &Name,
    span: Span,
    detail: Detail,
) -> Result<Refusal, MemoryError>
    ensures { IfOk result
        (λ made. refused_of made ≡ plain_one rule «module».now span (detail_of detail)) }
{
    kinds_agree();
    let Teller { module, names } = told_plainly(alloc, module)?;
    Ok(Refusal {
        module,
        span,
        rule,
        premise: detail.kind(),
        detail,
        names,
    })
}

/// Whether terms are kept.
fn keeps_terms(detail: &Detail) -> bool
    ensures { result ≡ has_terms (detail_of detail.now) }
{
    match detail {
        Detail::NotAFunction { .. }
        | Detail::TypeMismatch { .. }
        | Detail::NotAType { .. }
        | Detail::NotAFamily { .. }
        | Detail::ErasedUse { .. }
        | Detail::BudgetSpent { .. }
        | Detail::PatternStuck { .. }
        | Detail::DotMismatch { .. }
        | Detail::NotAnAction { .. } => true,
        Detail::NotUtf8
        | Detail::BadCharacter { .. }
        | Detail::OpenText
        | Detail::OpenComment
        | Detail::NumberTooWide
        | Detail::NameTooLong
        | Detail::BadIndent
        | Detail::Unexpected { .. }
        | Detail::TooDeep
        | Detail::Unbound { .. }
        | Detail::Ambiguous { .. }
        | Detail::Duplicate { .. }
        | Detail::NotPositive { .. }
        | Detail::NeedsType
        | Detail::WrongQuantity { .. }
        | Detail::WrongUsage { .. }
        | Detail::WrongLevel { .. }
        | Detail::WrongArity { .. }
        | Detail::ErasedMatch { .. }
        | Detail::Missing { .. }
        | Detail::NoClauses { .. }
        | Detail::WrongMain
        | Detail::Limit { .. }
        | Detail::WrongModuleName { .. }
        | Detail::Cycle { .. }
        | Detail::Unsolved { .. }
        | Detail::Unreachable { .. }
        | Detail::HasHoles { .. }
        | Detail::CoreRefused { .. } => false,
    }
}

/// With these names, or those of Prim where no term is kept.
fn told_by(
    alloc: Global,
    module: &Name,
    globals: Globals,
    detail: &Detail,
) -> Result<Teller, MemoryError>
    ensures { IfOk result (λ t. (t.«module» ≡ «module».now) ×
        (entries t.names ≡ names_of (detail_of detail.now) (entries globals))) }
{
    if keeps_terms(detail) {
        return Ok(Teller {
            module: module.copy()?,
            names: globals,
        });
    }
    told_plainly(alloc, module)
}

/// Why a module is not accepted, where these families and definitions stand at an error.
pub fn told(alloc: Global, module: &Name, globals: Globals, error: ElabError) -> ModuleError
    ensures { Tells «module».now (entries globals) result error }
{
    match error {
        ElabError::Refused(detail, span, rule, premise) => {
            match told_by(alloc, module, globals, &detail) {
                Ok(Teller { module, names }) => ModuleError::Refused(Refusal {
                    module,
                    span,
                    rule,
                    premise,
                    detail,
                    names,
                }),
                Err(MemoryError) => ModuleError::Memory,
            }
        }
        ElabError::Memory => ModuleError::Memory,
    }
}
