//! An input that fails at each of its pulls.

use crate::calls::{Failing, Left};
use crate::devices::run_failing;
use crate::rows::ECHO;
use std::alloc::{AllocError, Global};
use std::test::Fail;

/// Ten lines of so many letters.
fn ten_lines(alloc: Global, count: usize) -> Result<Vec<u8>, AllocError> {
    let mut all = Vec::new(alloc);
    for _ in 0..10 {
        for _ in 0..count {
            all.push(b'a')?;
        }
        all.push(b'\n')?;
    }
    Ok(all)
}

/// Whether the input failed, and a front was put.
fn is_cut(left: &Left, whole: &[u8]) -> bool {
    left.status == 74
        && left.err.bytes.as_slice() == b"input failed\n".as_slice()
        && whole.starts_with(left.out.bytes.as_slice())
}

/// However many pulls the echo of ten lines makes, a front is put where one of them fails.
#[test]
fn each_pull_may_fail(rt: HostRuntime) -> Result<(), Fail> {
    let alloc = rt.alloc();
    for count in [1, 1_000] {
        let input = ten_lines(alloc, count)?;
        let mut put = 0;
        let mut is_whole = false;
        for pull in 0..40 {
            let mut failing = Failing::none(alloc);
            failing.pulls.push(pull)?;
            let left = run_failing(&rt, alloc, ECHO, input.as_slice(), failing)?;
            // The first pull is made, and no pull is made behind one that is not.
            assert!(rt; pull > 0 || left.is(74, b"", b"input failed\n"));
            assert!(rt; !is_whole || left.status == 0, "at {pull}");
            is_whole = left.is(0, input.as_slice(), b"");
            assert!(rt; is_whole || is_cut(&left, input.as_slice()), "at {pull}");
            // A later fault leaves no less.
            let len = left.out.bytes.len();
            assert!(rt; put <= len, "at {pull}");
            put = len;
        }
    }
    Ok(())
}
