//! Loading from vaults in memory, and the order of what was loaded.

use qtt_base::Name;
use qtt_diag::message;
use qtt_edge::{MapVault, Vault};
use qtt_load::{LoadError, Loaded, OrderError, by_rank, load};
use std::alloc::Global;
use std::collections::BTreeMap;
use std::test::Fail;

/// A module's name and its text.
#[derive(Clone, Copy)]
struct Stored<'a> {
    name: &'a str,
    text: &'a str,
}

fn module<'a>(name: &'a str, text: &'a str) -> Stored<'a> {
    Stored { name, text }
}

fn texts_of(alloc: Global, modules: &[Stored]) -> Result<BTreeMap<String, Vec<u8>>, Fail> {
    let mut texts = BTreeMap::new(alloc);
    for stored in modules {
        let name = String::from_str(alloc, stored.name)?;
        texts.insert(name, stored.text.as_bytes().to_vec(alloc)?)?;
    }
    Ok(texts)
}

fn load_from<V: Vault>(
    alloc: Global,
    vault: &mut V,
    root: &str,
) -> Result<Result<Loaded, LoadError>, Fail> {
    let root = Name::new(alloc, root)?;
    Ok(load(alloc, vault, &root))
}

fn load_of(
    alloc: Global,
    modules: &[Stored],
    root: &str,
) -> Result<Result<Loaded, LoadError>, Fail> {
    let mut vault = MapVault::new(texts_of(alloc, modules)?);
    load_from(alloc, &mut vault, root)
}

/// Whether these modules were loaded, in this order.
fn has_names(answer: &Result<Loaded, LoadError>, wanted: &[&str]) -> bool {
    let Ok(loaded) = answer else {
        return false;
    };
    if loaded.texts().len() != wanted.len() {
        return false;
    }
    for (text, name) in loaded.texts().iter().zip(wanted.iter()) {
        if text.name.as_str() != *name {
            return false;
        }
    }
    true
}

/// Whether a module is refused with this line.
fn is_refused(alloc: Global, answer: &Result<Loaded, LoadError>, line: &str) -> Result<bool, Fail> {
    match answer {
        Err(LoadError::Refused(refusal)) => {
            Ok(message(alloc, refusal)?.as_slice() == line.as_bytes())
        }
        _ => Ok(false),
    }
}

const MAIN: &str = "module Main\nimport C\nimport B\nimport Prim\nimport C\n";

#[test]
fn modules_are_loaded_breadth_first(rt: HostRuntime) -> Result<(), Fail> {
    let modules = [
        module("Main", MAIN),
        module("C", "module C\nimport A\nimport D\n"),
        module("B", "module B\n"),
        module("A", "module A\n"),
        module("D", "module D\nimport A\n"),
        module("Apart", "module Apart\nimport Gone\n"),
    ];
    let answer = load_of(rt.alloc(), &modules, "Main")?;
    assert!(rt; has_names(&answer, &["Main", "C", "B", "A", "D"]));
    let levels = match &answer {
        Ok(loaded) => by_rank(rt.alloc(), loaded)?,
        Err(_) => Vec::new(rt.alloc()),
    };
    let wanted: [&[u32]; 4] = [&[3, 2], &[4], &[1], &[0]];
    assert_eq!(rt; levels.len(), wanted.len());
    for (level, places) in levels.iter().zip(wanted.iter()) {
        assert!(rt; level.as_slice() == *places);
    }
    Ok(())
}

#[test]
fn a_missing_module_is_named(rt: HostRuntime) -> Result<(), Fail> {
    let modules = [
        module("Main", "module Main\nimport A\nimport Gone\n"),
        module("A", "module A\nimport Lost\n"),
    ];
    let answer = load_of(rt.alloc(), &modules, "Main")?;
    assert!(rt; matches!(&answer, Err(LoadError::Absent(name)) if name.as_str() == "Gone"));
    let answer = load_of(rt.alloc(), &modules, "Lost")?;
    assert!(rt; matches!(&answer, Err(LoadError::Absent(name)) if name.as_str() == "Lost"));
    Ok(())
}

/// The line of the ring that is refused, if there is one.
fn ring_line(alloc: Global, loaded: &Loaded) -> Result<Vec<u8>, Fail> {
    let answer = by_rank(alloc, loaded);
    line_of(alloc, &answer)
}

fn line_of(alloc: Global, answer: &Result<Vec<Vec<u32>>, OrderError>) -> Result<Vec<u8>, Fail> {
    match answer {
        Err(OrderError::Refused(refusal)) => Ok(message(alloc, refusal)?),
        _ => Ok(Vec::new(alloc)),
    }
}

#[test]
fn a_ring_is_loaded_and_then_refused(rt: HostRuntime) -> Result<(), Fail> {
    let modules = [
        module("A", "module A\nimport B\n"),
        module("B", "module B\nimport C\n"),
        module("C", "module C\nimport A\n"),
    ];
    for root in ["A", "B", "C"] {
        let answer = load_of(rt.alloc(), &modules, root)?;
        let line = match &answer {
            Ok(loaded) => ring_line(rt.alloc(), loaded)?,
            Err(_) => Vec::new(rt.alloc()),
        };
        assert!(rt;
            line.as_slice() == b"A:2:1: 33 Cycle A B C".as_slice(),
            "from {root}"
        );
    }
    Ok(())
}

#[test]
fn each_reading_may_fail(rt: HostRuntime) -> Result<(), Fail> {
    let modules = [
        module("Main", "module Main\nimport A\nimport B\n"),
        module("A", "module A\n"),
        module("B", "module B\n"),
    ];
    for number in 0..4 {
        let texts = texts_of(rt.alloc(), &modules)?;
        let mut vault = MapVault::failing(texts, vec![in rt.alloc(); number]?);
        let answer = load_from(rt.alloc(), &mut vault, "Main")?;
        if number < 3 {
            assert!(rt;
                matches!(&answer, Err(LoadError::VaultFault)),
                "at {number}"
            );
        } else {
            assert!(rt; has_names(&answer, &["Main", "A", "B"]));
        }
    }
    Ok(())
}

/// A text of Main, and the line of its refusal.
#[derive(Clone, Copy)]
struct Refused<'a> {
    text: &'a str,
    line: &'a str,
}

#[test]
fn a_text_is_refused_for_its_first_fault(rt: HostRuntime) -> Result<(), Fail> {
    let cases = [
        Refused {
            text: "module Other\n",
            line: "Main:1:8: 32 WrongModuleName expected Main found Other",
        },
        Refused {
            text: "module Other\nmain = )\n",
            line: "Main:2:8: 8 Unexpected )",
        },
        Refused {
            text: "module Main\nmain = \"",
            line: "Main:2:8: 3 OpenText",
        },
        Refused {
            text: "module Main\nimport Gone\n#",
            line: "Main:3:1: 2 BadCharacter U+0023",
        },
    ];
    for case in cases {
        let answer = load_of(rt.alloc(), &[module("Main", case.text)], "Main")?;
        assert!(rt;
            is_refused(rt.alloc(), &answer, case.line)?,
            "at {}",
            case.line
        );
    }
    let prim = load_of(rt.alloc(), &[module("Prim", "module Prim\n")], "Prim")?;
    let line = "Prim:1:8: 32 WrongModuleName expected Prim found Prim";
    assert!(rt; is_refused(rt.alloc(), &prim, line)?);
    Ok(())
}

#[test]
fn long_texts_are_refused(rt: HostRuntime) -> Result<(), Fail> {
    let mut text = b"module Main\n".to_vec(rt.alloc())?;
    for _ in text.len()..1_048_576 {
        text.push(b' ')?;
    }
    for fits in [true, false] {
        let mut texts = BTreeMap::new(rt.alloc());
        texts.insert(
            String::from_str(rt.alloc(), "Main")?,
            text.as_slice().to_vec(rt.alloc())?,
        )?;
        let answer = load_from(rt.alloc(), &mut MapVault::new(texts), "Main")?;
        if fits {
            assert!(rt; has_names(&answer, &["Main"]));
        } else {
            let line = "Main:1:1: 31 Limit bytes of a module text 1048577";
            assert!(rt; is_refused(rt.alloc(), &answer, line)?);
        }
        text.push(b' ')?;
    }
    Ok(())
}

/// A chain of so many modules, each of which but the last imports the next one.
fn chain(alloc: Global, count: u32) -> Result<BTreeMap<String, Vec<u8>>, Fail> {
    let mut texts = BTreeMap::new(alloc);
    for number in 0..count {
        let name = format!(in alloc; "M{number}")?;
        let next = number.saturating_add(1);
        let text = if next < count {
            format!(in alloc; "module M{number}\nimport M{next}\n")?
        } else {
            format!(in alloc; "module M{number}\n")?
        };
        texts.insert(name, text.into_bytes())?;
    }
    Ok(texts)
}

/// Whether a build of a thousand modules is loaded whole.
fn loads_a_thousand(alloc: Global) -> Result<bool, Fail> {
    let mut vault = MapVault::new(chain(alloc, 1_000)?);
    let answer = load_from(alloc, &mut vault, "M0")?;
    Ok(matches!(&answer, Ok(loaded) if loaded.texts().len() == 1_000))
}

/// Whether a build of these texts, of one module too many, is refused.
fn refuses_one_more(alloc: Global, texts: BTreeMap<String, Vec<u8>>) -> Result<bool, Fail> {
    let mut vault = MapVault::new(texts);
    let answer = load_from(alloc, &mut vault, "M0")?;
    is_refused(alloc, &answer, "M0:1:1: 31 Limit modules of a build 1001")
}

#[test]
fn a_build_has_a_thousand_modules(rt: HostRuntime) -> Result<(), Fail> {
    assert!(rt; loads_a_thousand(rt.alloc())?);
    assert!(rt; refuses_one_more(rt.alloc(), chain(rt.alloc(), 1_001)?)?);
    // It is not asked whether the module is there.
    let mut texts = chain(rt.alloc(), 1_001)?;
    texts.remove("M1000");
    assert!(rt; refuses_one_more(rt.alloc(), texts)?);
    Ok(())
}
