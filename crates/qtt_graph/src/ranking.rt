//! The ranks of a build's modules.

ghost use Rattle.std.specs.Prelude.{◌≡◌, IfOk, IsTrue};
ghost use Rattle.qtt_graph.specs.Graph.{is_whole as is_whole_graph};
ghost use Rattle.qtt_graph.specs.Modules.{graph_of};
ghost use Rattle.qtt_graph.specs.Answer.{IsRanking};

use crate::errors::GraphError;
use crate::modules::Modules;
use crate::places::Places;
use qtt_base::MemoryError;
use qtt_syntax::ModuleText;
use std::alloc::Global;

/// The places of the modules by rank, and within a rank in byte order of their names: a module's
/// rank is one more than the greatest of those that it imports, or 0. Where modules import one
/// another in a ring, that ring which is told. An import of Prim counts for nothing.
pub fn ranks(alloc: Global, texts: &[ModuleText]) -> Result<Vec<Vec<u32>>, GraphError>
    requires whole { IsTrue (is_whole_graph (graph_of texts.now)) }
    ensures { IsRanking (graph_of texts.now) result }
{
    let modules = Modules::new(alloc, texts)?;
    let ranks = modules.ranks(alloc)?;
    match modules.ring(alloc, &ranks)? {
        Some(way) => Err(GraphError::Cycle(way)),
        None => Ok(modules.by_rank(alloc, &ranks)?),
    }
}

/// Whether `ranks` may be asked: no two names are the same, and each import but Prim is one of the
/// modules.
pub fn is_whole(alloc: Global, texts: &[ModuleText]) -> Result<bool, MemoryError>
    ensures { IfOk result (λ b. b ≡ is_whole_graph (graph_of texts.now)) }
{
    Ok(Places::new(alloc, texts)?.is_whole())
}
