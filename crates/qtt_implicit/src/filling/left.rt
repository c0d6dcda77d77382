//! How many nodes may still be put in.

ghost use Rattle.std.specs.Prelude.{◌≡◌, ◌≤◌, ℕ, min};
ghost use Rattle.qtt_implicit.specs.Filling.{put};
ghost use Rattle.qtt_implicit.specs.Meeting.{Meets};

use crate::filling::stop::Stop;

/// How many nodes may still be put in.
#[derive(Clone, Copy)]
pub struct Left {
    pub nodes: u64,
    pub ghost within: { nodes ≤ 1000000 },
}

impl Left {
    /// So many nodes are put in, of which no more than one above the limit are counted.
    pub fn put<'a>(&mut self, nodes: u64) -> Result<(), Stop<'a>>
        ensures { (n : ℕ) → nodes ≡ min n 1000001 →
            Meets (λ _. tt) result (put n self.old.nodes) self.new.nodes }
    {
        match self.nodes.checked_sub(nodes) {
            None => Err(Stop::TooLarge),
            Some(left) => {
                self.nodes = left;
                Ok(())
            }
        }
    }
}
