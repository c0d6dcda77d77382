//! The smallest programs: a main that puts so many texts.

use crate::calls::over_main;
use crate::rows::{BOUND, CHECK, RUN};
use std::alloc::{AllocError, Global};
use std::test::Fail;

/// A program that puts the same text so many times.
fn program(alloc: Global, count: usize, text: &str) -> Result<String, AllocError> {
    let mut whole = String::from_str(alloc, "module Main\nmain : IO Unit\nmain = do\n")?;
    for _ in 0..count {
        whole.push_str("  putLine \"")?;
        whole.push_str(text)?;
        whole.push_str("\"\n")?;
    }
    Ok(whole)
}

/// The text so many times, each on its line.
fn lines(alloc: Global, count: usize, text: &str) -> Result<String, AllocError> {
    let mut all = String::new(alloc);
    for _ in 0..count {
        all.push_str(text)?;
        all.push('\n')?;
    }
    Ok(all)
}

/// A main of k statements ends after 4 * k - 2 contractions, and the last of these puts the last
/// text.
#[test]
fn smallest_programs_end_within_their_steps(rt: HostRuntime) -> Result<(), Fail> {
    let alloc = rt.alloc();
    let rows = [
        (1, 0, "2", "1"),
        (2, 1, "6", "5"),
        (3, 2, "10", "9"),
        (500, 499, "1998", "1997"),
    ];
    for (count, fewer, enough, few) in rows {
        let text = program(alloc, count, "hello")?;
        let all = lines(alloc, count, "hello")?;
        let left = over_main(
            &rt,
            alloc,
            text.as_str(),
            &["run", "Main", "--steps", enough],
        )?;
        assert!(rt; left.is(0, all.as_bytes(), b""), "at {count}");
        let front = lines(alloc, fewer, "hello")?;
        let left = over_main(&rt, alloc, text.as_str(), &["run", "Main", "--steps", few])?;
        assert!(rt;
            left.is(3, front.as_bytes(), BOUND.as_bytes()),
            "at {count}"
        );
    }
    let longer = program(alloc, 501, "hello")?;
    let left = over_main(&rt, alloc, longer.as_str(), RUN)?;
    let refused = b"Main:504:3: 31 Limit statements of a do 501\n";
    assert!(rt; left.is(1, b"", refused));
    Ok(())
}

/// Every character that stands for itself in a text.
const PLAIN: &str =
    " !#$%&'()*+,-./0123456789:;<=>?@ABCDEFGHIJKLMNOPQRSTUVWXYZ[]^_`abcdefghijklmnopqrstuvwxyz{|}~";

#[test]
fn plain_texts_are_put(rt: HostRuntime) -> Result<(), Fail> {
    let alloc = rt.alloc();
    for text in [PLAIN, "", "--", "{-"] {
        let whole = program(alloc, 2, text)?;
        let wanted = lines(alloc, 2, text)?;
        let left = over_main(&rt, alloc, whole.as_str(), RUN)?;
        assert!(rt; left.is(0, wanted.as_bytes(), b""), "of {text}");
    }
    Ok(())
}

/// Fifteen texts of 65,536 bytes and one of the rest make up a module of 1,048,576 bytes.
#[test]
fn modules_have_so_many_bytes(rt: HostRuntime) -> Result<(), Fail> {
    let alloc = rt.alloc();
    let long = letters(alloc, 65_536)?;
    let mut whole = program(alloc, 15, long.as_str())?;
    let mut wanted = lines(alloc, 15, long.as_str())?;
    let rest = letters(alloc, 65_291)?;
    whole.push_str("  putLine \"")?;
    whole.push_str(rest.as_str())?;
    whole.push_str("\"\n")?;
    wanted.push_str(rest.as_str())?;
    wanted.push('\n')?;
    assert!(rt; whole.len() == 1_048_576);
    let left = over_main(&rt, alloc, whole.as_str(), RUN)?;
    assert!(rt; left.is(0, wanted.as_bytes(), b""));
    whole.push('\n')?;
    let refused = b"Main:1:1: 31 Limit bytes of a module text 1048577\n";
    let left = over_main(&rt, alloc, whole.as_str(), RUN)?;
    assert!(rt; left.is(1, b"", refused));
    // However many more there are, one above the limit is told.
    whole.push_str("\n\n")?;
    let left = over_main(&rt, alloc, whole.as_str(), CHECK)?;
    assert!(rt; left.is(1, b"", refused));
    Ok(())
}

fn letters(alloc: Global, count: usize) -> Result<String, AllocError> {
    let mut text = String::new(alloc);
    for _ in 0..count {
        text.push('a')?;
    }
    Ok(text)
}
