//! An output, and an error output, that fail at each of their puts.

use crate::builds::SEVEN;
use crate::calls::{Failing, Left, Stored, call_failing, over_main};
use crate::rows::{CHECK, CORE, IDENTITY, RUN, ZERO_FIRST};
use qtt_edge::FailingPut;
use std::alloc::Global;
use std::test::Fail;
use std::thread::Threads;

/// What a call leaves where one put of its output fails.
fn cut<R: Threads + Sync>(
    rt: &R,
    alloc: Global,
    text: &str,
    words: &[&str],
    put: FailingPut,
) -> Result<Left, Fail> {
    let mut failing = Failing::none(alloc);
    failing.puts.push(put)?;
    let modules = [Stored { name: "Main", text }];
    call_failing(rt, alloc, &modules, words, b"", failing)
}

/// Whether a call was cut off behind this front of its output.
fn is_cut(left: &Left, whole: &str, len: usize) -> bool {
    left.status == 74
        && left.err.bytes.as_slice() == b"output failed\n".as_slice()
        && left.out.bytes.len() == len
        && whole.as_bytes().starts_with(left.out.bytes.as_slice())
}

/// The four lines of the generated program have six bytes each.
#[test]
fn each_put_of_the_generated_program_may_fail(rt: HostRuntime) -> Result<(), Fail> {
    for (call, before) in [(0, 0), (1, 6), (2, 12), (3, 18)] {
        for (taken, len) in (0..7).zip(before..before + 7) {
            let put = FailingPut { call, taken };
            let left = cut(&rt, rt.alloc(), "", &["gen", "7"], put)?;
            assert!(rt; is_cut(&left, SEVEN, len), "at {call} taking {taken}");
        }
    }
    // The next put begins the counts.
    let put = FailingPut { call: 4, taken: 0 };
    let left = cut(&rt, rt.alloc(), "", &["gen", "7"], put)?;
    assert!(rt; is_cut(&left, SEVEN, 24));
    Ok(())
}

/// However many puts a command makes, its output is a front where one of them fails.
#[test]
fn each_command_may_be_cut_off(rt: HostRuntime) -> Result<(), Fail> {
    let alloc = rt.alloc();
    for words in [CHECK, CORE, &["code", "Main"], RUN] {
        let whole = over_main(&rt, alloc, IDENTITY, words)?;
        assert!(rt; whole.status == 0);
        let wanted = str::from_utf8(whole.out.bytes.as_slice())?;
        let left = cut(
            &rt,
            alloc,
            IDENTITY,
            words,
            FailingPut { call: 0, taken: 0 },
        )?;
        assert!(rt; is_cut(&left, wanted, 0));
        let left = cut(
            &rt,
            alloc,
            IDENTITY,
            words,
            FailingPut { call: 0, taken: 1 },
        )?;
        assert!(rt; is_cut(&left, wanted, 1));
        for call in 1..20 {
            let left = cut(&rt, alloc, IDENTITY, words, FailingPut { call, taken: 2 })?;
            let is_whole = left.is(0, wanted.as_bytes(), b"");
            let len = left.out.bytes.len();
            assert!(rt; is_whole || is_cut(&left, wanted, len), "at {call}");
        }
    }
    Ok(())
}

/// A line that the error output does not take whole leaves the status as it is.
#[test]
fn a_line_may_be_told_in_part(rt: HostRuntime) -> Result<(), Fail> {
    let rows = [
        ("", CHECK, 1, "Main:1:1: 8 Unexpected end\n"),
        (ZERO_FIRST, RUN, 2, "trap: division by zero\n"),
    ];
    for (text, words, status, line) in rows {
        for taken in 0..=line.len() {
            let mut failing = Failing::none(rt.alloc());
            failing.tellings.push(FailingPut { call: 0, taken })?;
            let modules = [Stored { name: "Main", text }];
            let left = call_failing(&rt, rt.alloc(), &modules, words, b"", failing)?;
            let told = left.err.bytes.as_slice();
            assert!(rt;
                left.status == status && left.out.bytes.is_empty(),
                "at {taken}"
            );
            assert!(rt;
                told.len() == taken && line.as_bytes().starts_with(told),
                "at {taken}"
            );
        }
    }
    Ok(())
}
