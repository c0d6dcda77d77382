//! Builds of the generated modules of number 7.

use crate::builds::outcome;
use qtt_edge::{MapVault, OpenGate};
use qtt_gen::generate;
use std::alloc::Global;
use std::collections::BTreeMap;
use std::test::Fail;

/// The texts of the modules, by their names.
fn texts(alloc: Global) -> Result<BTreeMap<String, Vec<u8>>, Fail> {
    let modules = generate(alloc, 7)?;
    let mut texts = BTreeMap::new(alloc);
    for (name, text) in &modules {
        let name = String::from_str(alloc, name.as_str())?;
        texts.insert(name, text.as_slice().to_vec(alloc)?)?;
    }
    Ok(texts)
}

/// What they come to: 29 modules by rank and name, with 57 definitions.
fn wanted(alloc: Global) -> Result<String, Fail> {
    let mut out = String::new(alloc);
    for i in 0..7u32 {
        for j in 0..4u32 {
            write!(out, "G{i}x{j} 2; ")?;
        }
    }
    write!(out, "Main 1; root 28")?;
    Ok(out)
}

#[test]
fn generated_modules_are_built(rt: HostRuntime) -> Result<(), Fail> {
    let alloc = rt.alloc();
    let wanted = wanted(alloc)?;
    let mut vault = MapVault::new(texts(alloc)?);
    let one = outcome(&rt, alloc, &mut vault, &OpenGate, "Main", 1)?;
    assert_eq!(rt; one.as_str(), wanted.as_str());
    let eight = outcome(&rt, alloc, &mut vault, &OpenGate, "Main", 8)?;
    assert_eq!(rt; eight.as_str(), wanted.as_str());
    let many = outcome(&rt, alloc, &mut vault, &OpenGate, "Main", 64)?;
    assert_eq!(rt; many.as_str(), wanted.as_str());
    Ok(())
}

/// The vault fails at each of its readings, one after the other, and then at none.
#[test]
fn each_reading_may_fail(rt: HostRuntime) -> Result<(), Fail> {
    let alloc = rt.alloc();
    let whole = wanted(alloc)?;
    for number in 0..30 {
        let stored = texts(alloc)?;
        let mut vault = MapVault::failing(stored, vec![in alloc; number]?);
        let answer = outcome(&rt, alloc, &mut vault, &OpenGate, "Main", 2)?;
        if number < 29 {
            assert_eq!(rt; answer.as_str(), "vault failed", "at {number}");
        } else {
            assert_eq!(rt; answer.as_str(), whole.as_str());
        }
    }
    Ok(())
}
