//! Why modules have no ranks.

ghost use Rattle.std.specs.Prelude.{◌≡◌};
ghost use Rattle.qtt_graph.specs.declared.errors.GraphError.TheVariants.{Memory};

use qtt_base::{MemoryError, Name};
use thiserror::Error;

/// Why modules have no ranks.
#[derive(Debug, Drop, Error)]
pub enum GraphError {
    /// The modules along the ring that is told, each of which imports the next and the last the
    /// first.
    #[error("modules import one another in a ring")]
    Cycle(Vec<Name>),
    #[error("out of memory")]
    Memory,
}

impl From<MemoryError> for GraphError {
    ghost from_gives = { λ _ e. e ≡ Memory };

    fn from(_error: MemoryError) -> GraphError {
        GraphError::Memory
    }
}
