//! The line of a refusal.

ghost use Rattle.std.specs.Prelude.{◌≡◌, IfOk, OnOk};
ghost use Rattle.qtt_diag.specs.Kept.{refusal as refusal_of};
ghost use Rattle.qtt_diag.specs.Messages.{message as message_of, place};
ghost use Rattle.qtt_diag.specs.Writing.{Adds};

use crate::detail::{kind_name, put_detail};
use crate::parts::{put, put_number, put_part};
use qtt_base::{MemoryError, Name, Span};
use qtt_rules::Refusal;
use std::alloc::Global;

/// `MODULE:LINE:COL: KIND NAME DETAIL`, without the byte that ends a line.
pub fn message(alloc: Global, refusal: &Refusal) -> Result<Vec<u8>, MemoryError>
    ensures { IfOk result (λ line. line.items ≡ message_of (refusal_of refusal.now)) }
{
    let mut out = Vec::new(alloc);
    put_place(alloc, &mut out, &refusal.module, refusal.span)?;
    put_number(&mut out, refusal.detail.kind() as u64)?;
    put_part(&mut out, kind_name(&refusal.detail).as_bytes())?;
    put_detail(alloc, &mut out, &refusal.names, &refusal.detail)?;
    Ok(out)
}

/// `MODULE:LINE:COL:`
fn put_place(alloc: Global, out: &mut Vec<u8>, module: &Name, span: Span) -> Result<(), MemoryError>
    ensures { OnOk result (Adds out.old out.new (place module.now span)) }
{
    let Span { line, col, .. } = span;
    put(out, module.as_str().as_bytes())?;
    put(out, format!(in alloc; ":{line}:{col}:")?.as_bytes())
}
