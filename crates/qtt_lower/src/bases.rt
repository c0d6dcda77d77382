//! The first block of each definition.

ghost use Rattle.std.specs.Prelude.{◌≡◌, option_map};
ghost use Rattle.qtt_term.specs.Keyed.{with_id};
ghost use Rattle.qtt_lower.specs.Programs.{base_id, entry};
ghost use Rattle.qtt_lower.specs.View.{bases as bases_of};

use qtt_base::GlobalId;

/// The first block of each definition that is not 0, in ascending order of module and item.
#[derive(Debug, Drop)]
pub struct Bases {
    pub firsts: Vec<(GlobalId, u32)>,
}

impl Bases {
    /// The first block of a definition.
    #[tactic(auto, using(crate::proofs::Found::found_bases))]
    pub fn first(&self, id: GlobalId) -> Option<u32>
        ensures { result ≡ option_map (λ b. b.block) (with_id base_id id (bases_of self.now)) }
    {
        for (owner, block) in &self.firsts {
            if owner.same(id) {
                return Some(*block);
            }
        }
        None
    }

    /// The first block of a definition, or 0 where there is none.
    #[tactic(auto, using(crate::proofs::Found::found_bases))]
    pub fn entry(&self, id: GlobalId) -> u32
        ensures { result ≡ entry (bases_of self.now) id }
    {
        self.first(id).unwrap_or(0)
    }
}
