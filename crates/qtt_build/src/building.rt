//! What is built so far: the modules of the ranks before, and the environment that they make up.

ghost use Rattle.std.specs.Prelude.{suc, vec_len};
ghost use Rattle.qtt_term.specs.Entries.{entries};
ghost use Rattle.qtt_build.specs.Parts.{OnlyBelow};

use qtt_module::Checked;
use qtt_term::Globals;

/// The modules that are built so far, and the environment that Prim and they make up, under the
/// numbers of their places.
#[derive(Drop)]
pub(crate) struct Building {
    pub globals: Globals,
    pub order: Vec<Checked>,
    pub ghost below: { OnlyBelow (suc (vec_len order)) (entries globals) },
}
