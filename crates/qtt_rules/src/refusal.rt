//! Refusals of modules.

ghost use Rattle.std.specs.Prelude.{◌≡◌};
ghost use Rattle.qtt_rules.specs.Kinds.{kind_of};

use crate::detail::Detail;
use qtt_base::{Name, Span};
use qtt_term::{Globals, Rule};

/// Why a module is refused: the place, and the premise that is false, by its rule and its number
/// there from 1. `names` is the environment in which the kept terms stand, with the items of the
/// module so far; where no term is kept it is that of the module Prim.
#[derive(Debug, Drop)]
pub struct Refusal {
    pub module: Name,
    pub span: Span,
    pub rule: Rule,
    pub premise: u8,
    pub detail: Detail,
    pub names: Globals,
}

/// The number of a refusal's kind, from 1 to 38.
pub fn kind(refusal: &Refusal) -> u8
    ensures { result ≡ kind_of refusal.now.detail }
{
    refusal.detail.kind()
}
