//! Vaults that fail at a reading, over texts of which one is refused for itself.

use crate::builds::outcome;
use qtt_edge::{MapVault, OpenGate};
use std::alloc::Global;
use std::collections::BTreeMap;
use std::test::Fail;
use std::thread::Threads;

/// A module that is read: its name, its text, one that is refused, and the line of the refusal.
#[derive(Clone, Copy)]
struct Read<'a> {
    name: &'a str,
    text: &'a [u8],
    wrong: &'a [u8],
    line: &'a str,
}

/// The modules of a build of Main, in the order in which they are read.
const MODULES: [Read<'static>; 4] = [
    Read {
        name: "Main",
        text: b"module Main\nimport A\nimport B\n",
        wrong: b"module Main\nimport A\nimport B\n#\n",
        line: "Main:4:1: 2 BadCharacter U+0023",
    },
    Read {
        name: "A",
        text: b"module A\nimport C\n",
        wrong: b"module A\nimport C\n-- \xC3\x28\n",
        line: "A:3:4: 1 NotUtf8",
    },
    Read {
        name: "B",
        text: b"module B\n",
        wrong: b"module Other\n",
        line: "B:1:8: 32 WrongModuleName expected B found Other",
    },
    Read {
        name: "C",
        text: b"module C\n",
        wrong: b"module C\nx : Int\xFF",
        line: "C:2:8: 1 NotUtf8",
    },
];

/// The texts of the modules, of which the one at this place is wrong.
fn texts(alloc: Global, place: usize) -> Result<BTreeMap<String, Vec<u8>>, Fail> {
    let mut texts = BTreeMap::new(alloc);
    for (number, module) in MODULES.iter().enumerate() {
        let text = if number == place {
            module.wrong
        } else {
            module.text
        };
        texts.insert(String::from_str(alloc, module.name)?, text.to_vec(alloc)?)?;
    }
    Ok(texts)
}

/// What is told where the text at one place is wrong, and the reading of one number fails.
fn told<R: Threads + Sync>(
    rt: &R,
    alloc: Global,
    place: usize,
    reading: u64,
) -> Result<String, Fail> {
    let failing = vec![in alloc; reading]?;
    let mut vault = MapVault::failing(texts(alloc, place)?, failing);
    outcome(rt, alloc, &mut vault, &OpenGate, "Main", 2)
}

/// A text is refused when it is read: a reading that fails before it or in its place is told, and
/// one behind it is never made.
#[test]
fn the_first_of_faults_and_refusals_is_told(rt: HostRuntime) -> Result<(), Fail> {
    for (place, module) in MODULES.iter().enumerate() {
        for reading in 0..6 {
            let told = told(&rt, rt.alloc(), place, reading)?;
            let wanted = if reading <= place as u64 {
                "vault failed"
            } else {
                module.line
            };
            assert_eq!(rt; told.as_str(), wanted, "of {place} and {reading}");
        }
    }
    Ok(())
}
