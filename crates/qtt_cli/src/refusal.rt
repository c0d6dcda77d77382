//! Refusals of what no module's check refuses.

ghost use Rattle.std.specs.Prelude.{◌≡◌, IfOk};
ghost use Rattle.qtt_diag.specs.Kept.{detail as detail_of};
ghost use Rattle.qtt_module.specs.Refused.{plain as plain_one, refused_of};

use qtt_base::{MemoryError, Name, Span};
use qtt_diag::laws::kinds_agree;
use qtt_rules::{Detail, Refusal};
use qtt_term::{Globals, Rule};
use std::alloc::Global;

/// The refusal of a module, of which no term is kept.
pub(crate) fn plain(
    alloc: Global,
    rule: Rule,
    module: &Name,
    span: Span,
    detail: Detail,
) -> Result<Refusal, MemoryError>
    ensures { IfOk result
        (λ made. refused_of made ≡ plain_one rule «module».now span (detail_of detail)) }
{
    kinds_agree();
    let module = module.copy()?;
    let names = Globals::prim(alloc)?;
    Ok(Refusal {
        module,
        span,
        rule,
        premise: detail.kind(),
        detail,
        names,
    })
}
