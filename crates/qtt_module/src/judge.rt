//! What the items of a module are judged by.

use qtt_base::{GlobalId, ModuleId, Name};
use std::alloc::Global;

/// A converter with the budget of each question, and the module: its number and its name.
#[derive(Drop)]
pub struct Judge<'a, C> {
    pub alloc: Global,
    pub converter: &'a C,
    pub budget: u64,
    pub module: ModuleId,
    pub home: &'a Name,
}

impl<'a, C> Judge<'a, C> {
    ghost use Rattle.std.specs.Prelude.{◌≡◌};
    ghost use Rattle.qtt_module.specs.Module.{item_of};
    ghost use Rattle.qtt_module.specs.Stages.{home};

    /// The id of the item of this number.
    pub fn item(&self, number: u32) -> GlobalId
        ensures { result ≡ item_of (home self.now) number }
    {
        GlobalId {
            module: self.module,
            item: number,
        }
    }
}
