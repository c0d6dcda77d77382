//! Jobs in groups, of each size.

ghost use Rattle.std.specs.Prelude.{◌≡◌, ◌<◌, ◌+◌, IfOk};

use crate::{Work, in_groups};
use qtt_base::MemoryError;
use std::alloc::Global;
use std::test::Fail;
use std::thread::Threads;

/// One more than each number, but for 0, at which it stops.
struct Successor;

impl Work<u32, u64, MemoryError> for Successor {
    ghost answers = { λ w j r. IfOk r (λ x. x ≡ j + 1) };

    fn answer(&self, job: u32) -> Result<u64, MemoryError> {
        if job == 0 {
            return Err(MemoryError);
        }
        Ok(job as u64 + 1)
    }
}

/// What is answered to these numbers, at most so many at once.
fn answers<R: Threads + Sync>(
    rt: &R,
    alloc: Global,
    jobs: &[u32],
    at_most: usize,
) -> Result<Vec<u64>, MemoryError>
    requires { 0 < at_most }
{
    in_groups(rt, alloc, jobs, at_most, &|_job: u32| (), &Successor)
}

#[test]
fn jobs_are_answered_in_order(rt: HostRuntime) -> Result<(), Fail> {
    let jobs = [3, 1, 4, 1, 5];
    let wanted = [4, 2, 5, 2, 6];
    assert!(rt; answers(&rt, rt.alloc(), &jobs, 1)?.as_slice() == wanted.as_slice());
    assert!(rt; answers(&rt, rt.alloc(), &jobs, 2)?.as_slice() == wanted.as_slice());
    assert!(rt; answers(&rt, rt.alloc(), &jobs, 64)?.as_slice() == wanted.as_slice());
    assert!(rt; answers(&rt, rt.alloc(), &[], 2)?.is_empty());
    Ok(())
}

#[test]
fn an_error_stops(rt: HostRuntime) -> Result<(), Fail> {
    assert!(rt; answers(&rt, rt.alloc(), &[3, 1, 0, 5], 2).is_err());
    Ok(())
}
