//! The signatures that a text sees.

use crate::filling::own_items::OwnItems;
use crate::filling::signature::Signature;
use qtt_base::ModuleId;
use qtt_names::Exports;

/// A module that is imported, and the signatures of its items in the order of their numbers.
#[derive(Drop)]
pub struct Import<'a> {
    pub exports: &'a Exports,
    pub sigs: Vec<Signature<'a>>,
}

/// The signatures that a text sees: those of its own items so far, in the order of their numbers,
/// and of what it imports, Prim among it.
#[derive(Drop)]
pub struct Known<'a> {
    pub home: ModuleId,
    pub own: OwnItems<'a>,
    pub imports: Vec<Import<'a>>,
}
