//! Places in a term, as lists that share what they begin with.

ghost use Rattle.std.specs.Prelude.{◌≡◌, IfOk};
ghost use Rattle.qtt_envconv.specs.Stacks.{path as path_of};

use qtt_base::MemoryError;
use qtt_term::Path;
use std::alloc::Global;

/// The numbers of the components on the way to a place, the last one first.
#[derive(Clone, Copy)]
pub enum Route<'a> {
    Whole,
    Below(u32, &'a Route<'a>),
}

impl<'a> Route<'a> {
    /// The numbers, the first one first.
    pub fn path(&self, alloc: Global) -> Result<Path, MemoryError>
        ensures { IfOk result (λ p. p.items ≡ path_of self.now) }
    {
        let mut path = Vec::new(alloc);
        let mut rest = self;
        while let Route::Below(number, above) = rest {
            path.push(*number)?;
            rest = above;
        }
        path.reverse();
        Ok(path)
    }
}
