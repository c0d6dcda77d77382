//! Lines and texts at the greatest number of their bytes.

use crate::calls::{Left, Stored, call, over_main};
use crate::rows::{ECHO, RUN};
use std::alloc::{AllocError, Global};
use std::test::Fail;
use std::thread::Threads;

/// So many bytes `a`.
fn letters(alloc: Global, count: usize) -> Result<Vec<u8>, AllocError> {
    vec![in alloc; b'a'; count]
}

/// What the echo of so many letters leaves, with or without a byte 10 behind them.
fn echoed<R: Threads + Sync>(
    rt: &R,
    alloc: Global,
    count: usize,
    is_ended: bool,
) -> Result<Left, Fail> {
    let mut input = letters(alloc, count)?;
    if is_ended {
        input.push(b'\n')?;
    }
    let modules = [Stored {
        name: "Main",
        text: ECHO,
    }];
    call(rt, alloc, &modules, RUN, input.as_slice())
}

#[test]
fn long_lines_are_echoed(rt: HostRuntime) -> Result<(), Fail> {
    let alloc = rt.alloc();
    let mut whole = letters(alloc, 65_536)?;
    whole.push(b'\n')?;
    for is_ended in [false, true] {
        let left = echoed(&rt, alloc, 65_536, is_ended)?;
        assert!(rt; left.is(0, whole.as_slice(), b""));
        let longer = echoed(&rt, alloc, 65_537, is_ended)?;
        assert!(rt; longer.is(2, b"", b"trap: bad input line\n"));
    }
    Ok(())
}

/// A main that puts a text of so many letters.
fn putting(alloc: Global, count: usize) -> Result<String, AllocError> {
    let mut text = String::from_str(alloc, "module Main\nmain : IO Unit\nmain = putLine \"")?;
    for _ in 0..count {
        text.push('a')?;
    }
    text.push_str("\"\n")?;
    Ok(text)
}

#[test]
fn long_texts_are_put(rt: HostRuntime) -> Result<(), Fail> {
    let alloc = rt.alloc();
    let mut whole = letters(alloc, 65_536)?;
    whole.push(b'\n')?;
    let text = putting(alloc, 65_536)?;
    let left = over_main(&rt, alloc, text.as_str(), RUN)?;
    assert!(rt; left.is(0, whole.as_slice(), b""));
    let text = putting(alloc, 65_537)?;
    let longer = over_main(&rt, alloc, text.as_str(), RUN)?;
    let refused = b"Main:3:16: 31 Limit bytes of a text literal 65537\n";
    assert!(rt; longer.is(1, b"", refused));
    Ok(())
}
