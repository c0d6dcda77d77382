//! Jobs in groups.

ghost use Rattle.std.specs.Prelude.{◌≡◌, ◌++◌, ◌∷◌, [], ◌<◌, ◌⊎◌, IfOk, IfErr, OnOk};
ghost use Rattle.qtt_base.specs.declared.errors.MemoryError.{MemoryError as Memory};
ghost use Rattle.qtt_jobs.specs.Answered.{AllAnswered, Answered, Stopped};

use crate::work::Work;
use qtt_base::MemoryError;
use std::alloc::Global;
use std::thread::{Threads, map_vec};

/// What is answered to each job, in their order, or the first error in their order. Groups of at
/// most so many are worked on at once, each after the one before it: a whole group is answered
/// before one of its answers is looked at. `before` is called with each job before its work.
pub fn in_groups<
    R: Threads + Sync,
    J: Copy + Send + Drop,
    X: Send + Drop,
    E: Send + Drop + From<MemoryError>,
    B: Fn(J) + Sync,
    W: Work<J, X, E>,
>(rt: &R, alloc: Global, jobs: &[J], at_most: usize, before: &B, work: &W) -> Result<Vec<X>, E>
    requires some { 0 < at_most }
    requires callable { B.IsAlwaysCallable before.now }
    ensures answered { IfOk result (λ v. Answered (W.answers work.now) jobs.now v.items) }
    ensures stopped { IfErr result (λ e.
        ((m : Memory) × E.from_gives m e) ⊎ Stopped (W.answers work.now) jobs.now e) }
{
    let mut answers = with_room(alloc, jobs.len())?;
    let mut rest = jobs;
    while !rest.is_empty() {
        let (group, others) = rest.split_at(at_most.min(rest.len()));
        let mut more = one_group(rt, alloc, group, before, work)?;
        put_all(&mut answers, &mut more)?;
        rest = others;
    }
    Ok(answers)
}

/// The answers to one group.
fn one_group<
    R: Threads + Sync,
    J: Copy + Send + Drop,
    X: Send + Drop,
    E: Send + Drop + From<MemoryError>,
    B: Fn(J) + Sync,
    W: Work<J, X, E>,
>(rt: &R, alloc: Global, group: &[J], before: &B, work: &W) -> Result<Vec<X>, E>
    requires { B.IsAlwaysCallable before.now }
    ensures answered { IfOk result (λ v. Answered (W.answers work.now) group.now v.items) }
    ensures stopped { IfErr result (λ e.
        ((m : Memory) × E.from_gives m e) ⊎ Stopped (W.answers work.now) group.now e) }
{
    let mut values = with_room(alloc, group.len())?;
    for answer in at_once(rt, alloc, group, before, work)? {
        put(&mut values, answer?)?;
    }
    Ok(values)
}

/// What is answered to each job, to all at once.
fn at_once<
    R: Threads + Sync,
    J: Copy + Send + Drop,
    X: Send + Drop,
    E: Send + Drop,
    B: Fn(J) + Sync,
    W: Work<J, X, E>,
>(
    rt: &R,
    alloc: Global,
    group: &[J],
    before: &B,
    work: &W,
) -> Result<Vec<Result<X, E>>, MemoryError>
    requires { B.IsAlwaysCallable before.now }
    ensures { IfOk result (λ v. AllAnswered (W.answers work.now) group.now v.items) }
{
    let answer = |job: J| -> Result<X, E>
        requires { B.IsAlwaysCallable before.now }
        ensures { W.answers work.entry.now job result }
    {
        before(job);
        work.answer(job)
    };
    Ok(map_vec(rt, Vec::from_slice(alloc, group)?, &answer)?)
}

fn with_room<T: Drop>(alloc: Global, count: usize) -> Result<Vec<T>, MemoryError>
    ensures { IfOk result (λ v. v.items ≡ []) }
{
    Ok(Vec::with_capacity(alloc, count)?)
}

fn put<T: Drop>(values: &mut Vec<T>, value: T) -> Result<(), MemoryError>
    ensures { OnOk result (values.new.items ≡ values.old.items ++ value ∷ []) }
{
    Ok(values.push(value)?)
}

fn put_all<T: Drop>(values: &mut Vec<T>, more: &mut Vec<T>) -> Result<(), MemoryError>
    ensures { OnOk result (values.new.items ≡ values.old.items ++ more.old.items) }
{
    Ok(values.append(more)?)
}
