//! How much there is of a tree.

ghost use Rattle.std.specs.Prelude.{◌≡◌};
ghost use Rattle.qtt_implicit.specs.Slots.{weight, both as both_of};

/// The number of a tree's nodes, up to one above the limit, and whether no part is unknown.
#[derive(Clone, Copy)]
pub struct Weight {
    pub nodes: u64,
    pub known: bool,
}

/// One above the most nodes that an item may have.
const MOST_COUNTED: u64 = 1_000_001;

impl Weight {
    /// Nothing.
    #[tactic(auto, unfolding(crate::specs::Slots::weight))]
    pub fn none() -> Weight
        ensures { result ≡ weight 0 0 }
    {
        Weight {
            nodes: 0,
            known: true,
        }
    }

    /// A node that is known.
    #[tactic(auto, unfolding(crate::specs::Slots::weight))]
    pub fn node() -> Weight
        ensures { result ≡ weight 1 0 }
    {
        Weight {
            nodes: 1,
            known: true,
        }
    }

    /// A node that is unknown.
    #[tactic(auto, unfolding(crate::specs::Slots::weight))]
    pub fn unknown() -> Weight
        ensures { result ≡ weight 1 1 }
    {
        Weight {
            nodes: 1,
            known: false,
        }
    }

    /// Both together.
    #[tactic(auto, unfolding(crate::specs::Slots::both))]
    pub fn and(self, other: Weight) -> Weight
        ensures { result ≡ both_of self other }
    {
        Weight {
            nodes: self.nodes.saturating_add(other.nodes).min(MOST_COUNTED),
            known: self.known && other.known,
        }
    }
}
