//! The modules of a build, judged rank by rank.

ghost use Rattle.std.specs.Prelude.{◌<◌, ◌+◌, ◌-◌, ◌^◌, map};
ghost use Rattle.qtt_syntax.specs.View.{module_of};
ghost use Rattle.qtt_module.specs.Answer.{Gives};
ghost use Rattle.qtt_build.specs.Built.{built_by_rank, nothing_yet};
ghost use Rattle.qtt_build.specs.Build.{modules_at};
ghost use Rattle.qtt_build.specs.Answer.{building_of, places_of, total};

use crate::building::Building;
use crate::rank::{jobs, judged};
use crate::worker::Worker;
use qtt_edge::Gate;
use qtt_module::ModuleError;
use qtt_syntax::ModuleText;
use std::alloc::Global;
use std::thread::Threads;

/// The modules at these places, each rank over what the ranks before it built.
pub(crate) fn built_by_rank<R: Threads + Sync, G: Gate>(
    rt: &R,
    alloc: Global,
    gate: &G,
    texts: &[ModuleText],
    levels: &[Vec<u32>],
    budget: u64,
    at_most: usize,
) -> Result<Building, ModuleError>
    requires some { 0 < at_most }
    requires few { total (places_of levels.now) < 2 ^ 32 - 1 }
    ensures { Gives building_of result (built_by_rank budget nothing_yet
        (map (modules_at (map module_of texts.now)) (places_of levels.now))) }
{
    let mut building = Building::new(alloc)?;
    for level in levels {
        let first = building.order.len() as u32 + 1;
        let jobs = jobs(alloc, texts, level, first)?;
        let worker = Worker {
            alloc,
            budget,
            building: &building,
        };
        let rank = judged(rt, gate, &worker, &jobs, at_most)?;
        building = building.with_rank(alloc, rank)?;
    }
    Ok(building)
}
