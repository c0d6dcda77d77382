//! What was built.

use qtt_module::Checked;
use qtt_term::Globals;

/// Prim and what each module of a build declares, and its modules by rank and name. They are
/// numbered so, from 1.
#[derive(Drop)]
pub struct Built {
    pub env: Globals,
    pub order: Vec<Checked>,
    /// The place of the named module among them, from 0.
    pub root: u32,
}
