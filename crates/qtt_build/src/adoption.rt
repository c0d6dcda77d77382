//! The parts of accepted modules, put into the environment.

ghost use Rattle.std.specs.Prelude.{◌≡◌, suc, map, vec_len, IfOk, OnOk};
ghost use Rattle.qtt_term.specs.Entries.{entries};
ghost use Rattle.qtt_build.specs.Built.{all_adopted, nothing_yet, with_rank};
ghost use Rattle.qtt_module.specs.TextCalls.{accepted_of};
ghost use Rattle.qtt_build.specs.Answer.{building_of};
ghost use Rattle.qtt_build.specs.Parts.{Follow, NumberedFrom};

use crate::building::Building;
use qtt_base::MemoryError;
use qtt_module::Checked;
use qtt_term::Globals;
use std::alloc::Global;

/// Puts the parts of modules into an environment.
fn adopt_all(alloc: Global, globals: &mut Globals, rank: &[Checked]) -> Result<(), MemoryError>
    requires { Follow (entries globals.old) (map accepted_of rank.now) }
    ensures { OnOk result
        (entries globals.new ≡ all_adopted (entries globals.old) (map accepted_of rank.now)) }
{
    for checked in rank {
        globals.adopt(alloc, &checked.part)?;
    }
    Ok(())
}

impl Building {
    /// Prim alone.
    pub fn new(alloc: Global) -> Result<Building, MemoryError>
        ensures { IfOk result (λ b. building_of b ≡ nothing_yet) }
    {
        Ok(Building {
            globals: Globals::prim(alloc)?,
            order: Vec::new(alloc),
        })
    }

    /// These and the modules of the next rank.
    pub fn with_rank(self, alloc: Global, mut rank: Vec<Checked>) -> Result<Building, MemoryError>
        requires { NumberedFrom (suc (vec_len self.order)) (map accepted_of rank.items) }
        ensures { IfOk result (λ b. building_of b ≡ with_rank (building_of self)
            (map accepted_of rank.items)) }
    {
        let Building {
            mut globals,
            mut order,
        } = self;
        adopt_all(alloc, &mut globals, &rank)?;
        order.append(&mut rank)?;
        Ok(Building { globals, order })
    }
}
