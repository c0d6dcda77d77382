//! Every front of the text of an ordinary program.

use crate::calls::{Left, Row, all_hold, over_main};
use crate::rows::{CHECK, VECTORS, done, told};
use std::test::Fail;

/// The answers to the fronts that end with a line, with and without its byte 10.
const BY_LINES: [(u8, &str); 18] = [
    (0, "checked Main 0\n"),
    (0, "checked Main 0\n"),
    (0, "checked Main 0\n"),
    (0, "checked Main 0\n"),
    (1, "Main:5:1: 29 NoClauses plus\n"),
    (1, "Main:6:1: 28 Missing plus (S _) _\n"),
    (0, "checked Main 1\n"),
    (0, "checked Main 1\n"),
    (0, "checked Main 1\n"),
    (0, "checked Main 1\n"),
    (1, "Main:11:1: 29 NoClauses append\n"),
    (1, "Main:12:1: 28 Missing append _ _ _ (Cons _ _ _) _\n"),
    (0, "checked Main 2\n"),
    (1, "Main:14:1: 29 NoClauses total\n"),
    (1, "Main:15:1: 28 Missing total _ (Cons _ _ _)\n"),
    (0, "checked Main 3\n"),
    (1, "Main:17:1: 29 NoClauses main\n"),
    (0, "checked Main 4\n"),
];

#[test]
fn fronts_of_lines_are_as_worked(rt: HostRuntime) -> Result<(), Fail> {
    let alloc = rt.alloc();
    let mut front = String::new(alloc);
    for (line, (status, told_line)) in VECTORS.lines().zip(BY_LINES) {
        front.push_str(line)?;
        assert!(rt; all_hold(&rt, alloc, &[answered(front.as_str(), status, told_line)])?);
        front.push('\n')?;
        assert!(rt; all_hold(&rt, alloc, &[answered(front.as_str(), status, told_line)])?);
    }
    assert!(rt; front.as_str() == VECTORS);
    Ok(())
}

/// The check of a text that is accepted or refused so.
fn answered<'a>(text: &'a str, status: u8, line: &'a str) -> Row<'a> {
    match status {
        0 => done(text, CHECK, line),
        _ => told(text, CHECK, status, line),
    }
}

/// The place at which a line tells a refusal of the module Main.
fn place_of(line: &str) -> Option<(usize, usize)> {
    let rest = line.strip_prefix("Main:")?;
    let (row, rest) = rest.split_once(':')?;
    let (column, _) = rest.split_once(": ")?;
    Some((row.parse::<usize>().ok()?, column.parse::<usize>().ok()?))
}

/// Whether a character stands at this place of a text, or its line or the text ends there.
fn is_within(text: &str, row: usize, column: usize) -> bool {
    match (row.checked_sub(1), column.checked_sub(1)) {
        (Some(before), Some(left_of)) => match text.split('\n').nth(before) {
            Some(line) => left_of <= line.len(),
            None => false,
        },
        _ => false,
    }
}

/// Whether one line is told, of a place in the text or directly behind it, and nothing is put.
fn is_refused_within(left: &Left, text: &str) -> Result<bool, Fail> {
    let line = str::from_utf8(left.err.bytes.as_slice())?;
    let is_told = line.ends_with('\n') && line.lines().count() == 1;
    let is_placed = match place_of(line) {
        Some((row, column)) => is_within(text, row, column),
        None => false,
    };
    Ok(left.status == 1 && left.out.bytes.is_empty() && is_told && is_placed)
}

/// The number of definitions of a text that is accepted, and nothing else is put.
fn accepted(left: &Left) -> Option<usize> {
    let lines = [
        "checked Main 0\n",
        "checked Main 1\n",
        "checked Main 2\n",
        "checked Main 3\n",
        "checked Main 4\n",
    ];
    lines
        .iter()
        .position(|line| left.is(0, line.as_bytes(), b""))
}

/// Each front by bytes is accepted or refused at a place of its own, and what is accepted has no
/// fewer definitions than a shorter front that is.
#[test]
fn each_front_is_accepted_or_refused(rt: HostRuntime) -> Result<(), Fail> {
    let alloc = rt.alloc();
    let mut most = 0;
    let mut front = String::new(alloc);
    for letter in VECTORS.chars() {
        let left = over_main(&rt, alloc, front.as_str(), CHECK)?;
        match accepted(&left) {
            Some(count) => {
                assert!(rt; most <= count, "of {front}");
                most = count;
            }
            None => assert!(rt; is_refused_within(&left, front.as_str())?, "of {front}"),
        }
        front.push(letter)?;
    }
    assert!(rt; most == 4);
    Ok(())
}
