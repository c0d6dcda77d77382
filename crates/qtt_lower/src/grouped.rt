//! Work on many definitions at once.

ghost use Rattle.std.specs.Prelude.{◌<◌, IfOk};
ghost use Rattle.qtt_lower.specs.Answered.{Answered};

use qtt_base::{GlobalId, MemoryError};
use std::alloc::Global;
use std::thread;
use std::thread::Threads;

/// What a function answers for each id, in their order. Groups of at most so many are worked on
/// at once, each after the one before it.
pub fn grouped<R: Threads + Sync, X: Send + Drop, F: Fn(GlobalId) -> Result<X, MemoryError> + Sync>(
    rt: &R,
    alloc: Global,
    ids: &[GlobalId],
    jobs: usize,
    work: &F,
) -> Result<Vec<X>, MemoryError>
    requires jobs { 0 < jobs }
    requires callable { F.IsAlwaysCallable work.now }
    ensures { IfOk result (λ v. Answered F.Fn work.now ids.now v.items) }
{
    let mut answers = Vec::new(alloc);
    let mut rest = ids;
    while !rest.is_empty() {
        let (group, others) = rest.split_at(jobs.min(rest.len()));
        let mut more = one_group(rt, alloc, group, work)?;
        answers.append(&mut more)?;
        rest = others;
    }
    Ok(answers)
}

fn one_group<R: Threads + Sync, X: Send + Drop, F: Fn(GlobalId) -> Result<X, MemoryError> + Sync>(
    rt: &R,
    alloc: Global,
    group: &[GlobalId],
    work: &F,
) -> Result<Vec<X>, MemoryError>
    requires { F.IsAlwaysCallable work.now }
    ensures { IfOk result (λ v. Answered F.Fn work.now group.now v.items) }
{
    let mut answers = Vec::new(alloc);
    for answer in thread::map_vec(rt, Vec::from_slice(alloc, group)?, work)? {
        answers.push(answer?)?;
    }
    Ok(answers)
}
