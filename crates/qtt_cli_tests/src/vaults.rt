//! A vault that fails at each of its readings, and one that lacks a module.

use crate::builds::{leaves, module};
use crate::calls::{Failing, Stored, call_failing};
use crate::rows::{CHECK, CORE, HELLO, RUN};
use std::alloc::{AllocError, Global};
use std::test::Fail;

/// A module that is made here.
#[derive(Drop)]
struct Made {
    name: String,
    text: String,
}

/// The value at 0 of the function of a generated module: each function applies the one of the
/// next lower number to three times its argument and a constant of its own.
fn value(number: i64, place: i64) -> i64 {
    let mut value = 0i64;
    for step in 0..=number {
        let left = number.wrapping_sub(step);
        let beside = place.wrapping_add(step) % 4;
        let constant = left.wrapping_mul(4).wrapping_add(beside);
        value = value.wrapping_mul(3).wrapping_add(constant);
    }
    value
}

/// The generated module of a number and a place.
fn generated(alloc: Global, number: i64, place: i64) -> Result<Made, AllocError> {
    let name = format!(in alloc; "G{number}x{place}")?;
    let below = number.wrapping_sub(1);
    let beside = place.wrapping_add(1) % 4;
    let constant = number.wrapping_mul(4).wrapping_add(place);
    let at_zero = value(number, place);
    let mut text = format!(in alloc; "module {name}\n")?;
    let f = format!(in alloc; "f{number}x{place}")?;
    let argument = format!(in alloc; "addInt (mulInt x 3) {constant}")?;
    if number > 0 {
        write!(text, "import G{below}x{beside}\n{f} : Int -> Int\n")?;
        write!(text, "{f} x = f{below}x{beside} ({argument})\n")?;
    } else {
        write!(text, "{f} : Int -> Int\n{f} x = {argument}\n")?;
    }
    let p = format!(in alloc; "p{number}x{place}")?;
    write!(text, "{p} : Eq Int ({f} 0) {at_zero}\n{p} = Refl\n")?;
    Ok(Made { name, text })
}

/// The 29 generated modules of number 7.
fn all_generated(alloc: Global) -> Result<Vec<Made>, AllocError> {
    let mut all = Vec::new(alloc);
    let mut imports = String::new(alloc);
    let mut puts = String::new(alloc);
    for number in 0..7 {
        for place in 0..4 {
            all.push(generated(alloc, number, place)?)?;
        }
    }
    for place in 0..4 {
        write!(imports, "import G6x{place}\n")?;
        write!(puts, "  putLine (showInt (f6x{place} 1))\n")?;
    }
    let text = format!(in alloc; "module Main\n{imports}main : IO Unit\nmain = do\n{puts}")?;
    let name = String::from_str(alloc, "Main")?;
    all.push(Made { name, text })?;
    Ok(all)
}

/// The 29 readings fail in turn; a thirtieth is never made.
#[test]
fn each_reading_may_fail(rt: HostRuntime) -> Result<(), Fail> {
    let alloc = rt.alloc();
    let all = all_generated(alloc)?;
    let mut modules: Vec<Stored> = Vec::new(alloc);
    for made in &all {
        modules.push(module(made.name.as_str(), made.text.as_str()))?;
    }
    assert!(rt; modules.len() == 29);
    for reading in 0..30 {
        let mut failing = Failing::none(alloc);
        failing.reads.push(reading)?;
        let left = call_failing(&rt, alloc, modules.as_slice(), RUN, b"", failing)?;
        if reading < 29 {
            assert!(rt; left.is(74, b"", b"vault failed\n"), "at {reading}");
        } else {
            assert!(rt; left.is(0, b"26738\n27723\n28488\n28597\n", b""));
        }
    }
    Ok(())
}

#[test]
fn lacking_modules_and_readings_are_told(rt: HostRuntime) -> Result<(), Fail> {
    let alloc = rt.alloc();
    let hello = [module("Main", HELLO)];
    for words in [CHECK, CORE, &["code", "Main"], RUN] {
        let mut failing = Failing::none(alloc);
        failing.reads.push(0)?;
        let left = call_failing(&rt, alloc, &hello, words, b"", failing)?;
        assert!(rt; left.is(74, b"", b"vault failed\n"));
        assert!(rt; leaves(&rt, alloc, &[], words, 66, "", "module Main not found\n")?);
    }
    let lower = ["run", "main"];
    assert!(rt;
        leaves(
            &rt,
            alloc,
            &hello,
            &lower,
            66,
            "",
            "module main not found\n"
        )?
    );
    let over_gone = [module("Main", "module Main\nimport Gone\n")];
    assert!(rt;
        leaves(
            &rt,
            alloc,
            &over_gone,
            CHECK,
            66,
            "",
            "module Gone not found\n"
        )?
    );
    Ok(())
}
