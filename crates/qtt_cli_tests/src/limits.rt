//! Texts at a limit, and one above it.

use crate::calls::over_main;
use crate::rows::CHECK;
use std::alloc::{AllocError, Global};
use std::test::Fail;

/// A number in so many brackets.
fn bracketed(alloc: Global, count: usize) -> Result<String, AllocError> {
    let mut text = String::from_str(alloc, "module Main\nx : Int\nx = ")?;
    for _ in 0..count {
        text.push('(')?;
    }
    text.push('3')?;
    for _ in 0..count {
        text.push(')')?;
    }
    text.push('\n')?;
    Ok(text)
}

#[test]
fn nesting_has_a_limit(rt: HostRuntime) -> Result<(), Fail> {
    let alloc = rt.alloc();
    let text = bracketed(alloc, 200)?;
    let left = over_main(&rt, alloc, text.as_str(), CHECK)?;
    assert!(rt; left.is(0, b"checked Main 1\n", b""));
    let text = bracketed(alloc, 201)?;
    let left = over_main(&rt, alloc, text.as_str(), CHECK)?;
    assert!(rt; left.is(1, b"", b"Main:3:205: 9 TooDeep\n"));
    Ok(())
}

/// A function of so many clauses, of which the first fits always.
fn repeated(alloc: Global, count: usize) -> Result<String, AllocError> {
    let mut text = String::from_str(alloc, "module Main\nf : Int -> Int\n")?;
    for _ in 0..count {
        text.push_str("f x = 0\n")?;
    }
    Ok(text)
}

#[test]
fn clauses_have_a_limit(rt: HostRuntime) -> Result<(), Fail> {
    let alloc = rt.alloc();
    let text = repeated(alloc, 1_000)?;
    let left = over_main(&rt, alloc, text.as_str(), CHECK)?;
    assert!(rt; left.is(1, b"", b"Main:4:1: 36 Unreachable f\n"));
    let text = repeated(alloc, 1_001)?;
    let left = over_main(&rt, alloc, text.as_str(), CHECK)?;
    let refused = b"Main:1003:1: 31 Limit clauses of a definition 1001\n";
    assert!(rt; left.is(1, b"", refused));
    Ok(())
}
