//! The order in which a build's modules are checked.

ghost use Rattle.std.specs.Prelude.{◌≡◌, IfOk, Some};
ghost use Rattle.qtt_graph.specs.Modules.{graph_of};
ghost use Rattle.qtt_graph.specs.Ring as ring;
ghost use Rattle.qtt_term.specs.declared.rule.Rule.TheVariants.{Build};
ghost use Rattle.qtt_rules.specs.Kinds.{kind_of};
ghost use Rattle.qtt_diag.specs.Kept.{refusal as kept_of};
ghost use Rattle.qtt_load.specs.Order.{IsOrder, ring_refusal, imported_at};

use crate::errors::OrderError;
use crate::loaded::Loaded;
use crate::refusal::refusal;
use qtt_base::{MemoryError, Name, Span};
use qtt_graph::{GraphError, ranks};
use qtt_rules::{Detail, Refusal};
use qtt_syntax::{Import, ModuleText};
use qtt_term::Rule;
use std::alloc::Global;

/// The places of the modules by rank, and within a rank in byte order of their names: a module's
/// rank is one more than the greatest of those that it imports, or 0.
pub fn by_rank(alloc: Global, loaded: &Loaded) -> Result<Vec<Vec<u32>>, OrderError>
    ensures { IsOrder (graph_of loaded.now.texts.items) result }
{
    match ranks(alloc, loaded.texts()) {
        Ok(levels) => Ok(levels),
        Err(GraphError::Cycle(way)) => {
            let refusal = ring_refusal(alloc, loaded.texts(), way)?;
            Err(OrderError::Refused(refusal))
        }
        Err(GraphError::Memory) => Err(OrderError::Memory),
    }
}

/// The refusal of the ring that is told.
fn ring_refusal(alloc: Global, texts: &[ModuleText], way: Vec<Name>) -> Result<Refusal, MemoryError>
    requires told { ring.ring (graph_of texts.now) ≡ Some way.items }
    ensures kept { IfOk result
        (λ made. ring_refusal (graph_of texts.now) way.items ≡ Some (kept_of made)) }
    ensures named { IfOk result (λ made. made.rule ≡ Build) }
    ensures numbered { IfOk result (λ made. made.premise ≡ kind_of made.detail) }
{
    let [first, more @ ..] = way.as_slice() else {
        unreachable!();
    };
    let Some(span) = import_place(texts, first, second(first, more)) else {
        unreachable!();
    };
    refusal(
        alloc,
        first.copy()?,
        span,
        Rule::Build,
        Detail::Cycle { modules: way },
    )
}

/// The module to which the way leads first: the next one, or back to the first.
fn second<'w>(first: &'w Name, more: &'w [Name]) -> &'w Name
    ensures { result.now ≡ ring.second first.now more.now }
{
    match more {
        [next, ..] => next,
        [] => first,
    }
}

/// The place of a module's first import of another.
fn import_place(texts: &[ModuleText], importer: &Name, imported: &Name) -> Option<Span>
    ensures { result ≡ ring.import_place (graph_of texts.now) importer.now imported.now }
{
    for text in texts {
        if text.name == *importer {
            return imported_at(&text.imports, imported);
        }
    }
    None
}

/// The place of the first of these imports that is of a module. One of Prim counts for nothing.
fn imported_at(imports: &[Import], imported: &Name) -> Option<Span>
    ensures { result ≡ imported_at imports.now imported.now }
{
    for import in imports {
        if import.name.as_str() != "Prim" && import.name == *imported {
            return Some(import.span);
        }
    }
    None
}
