//! What is kept of an accepted module.

use qtt_base::{GlobalId, Span};
use qtt_holes::Hole;
use qtt_names::Exports;
use qtt_term::Globals;

/// What is kept of an accepted module: what it gives to those that import it, its families and
/// definitions alone, the number of its definitions, the place of its header, its holes in the
/// order of the text, and the definition `main`.
#[derive(Drop)]
pub struct Checked {
    pub exports: Exports,
    pub part: Globals,
    pub definitions: u32,
    pub header: Span,
    pub holes: Vec<Hole>,
    pub main: Option<GlobalId>,
}
