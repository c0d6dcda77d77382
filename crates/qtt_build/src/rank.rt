//! The modules of a rank.

ghost use Rattle.std.specs.Prelude.{◌≡◌, ◌<◌, ◌+◌, ◌^◌, length, map, IfOk};
ghost use Rattle.qtt_syntax.specs.View.{module_of};
ghost use Rattle.qtt_module.specs.Answer.{Gives};
ghost use Rattle.qtt_build.specs.Built.{all_accepted};
ghost use Rattle.qtt_build.specs.Build.{modules_at};
ghost use Rattle.qtt_build.specs.Answer.{accepted_list, answers_to, building_of, task_of, tasks_from};

use crate::worker::{Job, Worker};
use qtt_base::{MemoryError, ModuleId};
use qtt_edge::Gate;
use qtt_jobs::in_groups;
use qtt_module::{Checked, ModuleError};
use qtt_syntax::ModuleText;
use std::alloc::Global;
use std::thread::Threads;

/// The modules at these places, under numbers from this one on.
pub(crate) fn jobs<'t>(
    alloc: Global,
    texts: &'t [ModuleText],
    places: &[u32],
    first: u32,
) -> Result<Vec<Job<'t>>, MemoryError>
    requires { first + length places.now < 2 ^ 32 }
    ensures { IfOk result (λ v. map task_of v.items
        ≡ tasks_from first (modules_at (map module_of texts.now) places.now)) }
{
    let mut jobs = Vec::with_capacity(alloc, places.len())?;
    let mut number = first;
    for place in places {
        if let Some(text) = texts.get(*place as usize) {
            let id = ModuleId(number);
            jobs.push(Job { id, text })?;
            number += 1;
        }
    }
    Ok(jobs)
}

/// The modules of a rank, of which at most so many are judged at once, each once it has passed the
/// gate: all that are accepted, or the first refusal.
pub(crate) fn judged<R: Threads + Sync, G: Gate>(
    rt: &R,
    gate: &G,
    worker: &Worker,
    jobs: &[Job],
    at_most: usize,
) -> Result<Vec<Checked>, ModuleError>
    requires { 0 < at_most }
    ensures { Gives accepted_list result (all_accepted (answers_to worker.now.budget
        (building_of worker.now.building.now) (map task_of jobs.now))) }
{
    let pass = |job: Job| gate.pass(job.text.name.as_str());
    in_groups(rt, worker.alloc, jobs, at_most, &pass, worker)
}
