//! Refusals of a build's modules.

ghost use Rattle.std.specs.Prelude.{◌≡◌, IfOk};
ghost use Rattle.qtt_rules.specs.Kinds.{kind_of};
ghost use Rattle.qtt_diag.specs.Kept as kept;
ghost use Rattle.qtt_diag.specs.Kept.{detail as detail_of};
ghost use Rattle.qtt_load.specs.Loading.{refusal};

use qtt_base::{MemoryError, Name, Span};
use qtt_rules::{Detail, Refusal};
use qtt_term::{Globals, Rule};
use std::alloc::Global;

/// The refusal of the module of this name. What loading keeps has no terms, so that the names are
/// those of Prim. The tests of a text, and those of a build, stand in the order of their kinds.
pub fn refusal(
    alloc: Global,
    name: Name,
    span: Span,
    rule: Rule,
    detail: Detail,
) -> Result<Refusal, MemoryError>
    ensures kept { IfOk result
        (λ made. kept.refusal made ≡ refusal name span (detail_of detail)) }
    ensures named { IfOk result (λ made. made.rule ≡ rule) }
    ensures numbered { IfOk result (λ made. made.premise ≡ kind_of made.detail) }
{
    Ok(Refusal {
        module: name,
        span,
        rule,
        premise: detail.kind(),
        detail,
        names: Globals::prim(alloc)?,
    })
}
