//! What was loaded.

ghost use Rattle.std.specs.Prelude.{◌≡◌, IsTrue};
ghost use Rattle.qtt_graph.specs.Graph.{is_whole};
ghost use Rattle.qtt_graph.specs.Modules.{graph_of};

use qtt_syntax::ModuleText;

/// The modules of a build, in the order in which they were read: the named one first.
#[derive(Debug, Drop)]
pub struct Loaded {
    pub(crate) texts: Vec<ModuleText>,
    ghost whole: { IsTrue (is_whole (graph_of texts.items)) },
}

impl Loaded {
    pub fn texts(&self) -> &[ModuleText]
        ensures { result.now ≡ self.now.texts.items }
    {
        &self.texts
    }
}
