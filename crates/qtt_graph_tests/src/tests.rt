//! Ranks and rings of small builds.

use qtt_base::{Name, Span};
use qtt_graph::{GraphError, is_whole, ranks};
use qtt_syntax::{Import, ModuleText};
use std::alloc::Global;
use std::test::Fail;

/// A module by its name and its imports, in text order.
#[derive(Clone, Copy)]
struct Lines<'a> {
    name: &'a str,
    imports: &'a [&'a str],
}

fn module<'a>(name: &'a str, imports: &'a [&'a str]) -> Lines<'a> {
    Lines { name, imports }
}

const NOWHERE: Span = Span {
    line: 1,
    col: 1,
    len: 1,
};

fn text(alloc: Global, lines: &Lines) -> Result<ModuleText, Fail> {
    let mut imports = Vec::new(alloc);
    for import in lines.imports {
        imports.push(Import {
            name: Name::new(alloc, import)?,
            span: NOWHERE,
        })?;
    }
    Ok(ModuleText {
        header: NOWHERE,
        name: Name::new(alloc, lines.name)?,
        name_span: NOWHERE,
        imports,
        items: Vec::new(alloc),
    })
}

fn texts(alloc: Global, build: &[Lines]) -> Result<Vec<ModuleText>, Fail> {
    let mut texts = Vec::new(alloc);
    for lines in build {
        texts.push(text(alloc, lines)?)?;
    }
    Ok(texts)
}

fn is_ranked(alloc: Global, build: &[Lines], wanted: &[&[u32]]) -> Result<bool, Fail> {
    let texts = texts(alloc, build)?;
    if !is_whole(alloc, &texts)? {
        return Ok(false);
    }
    let levels = match ranks(alloc, &texts) {
        Ok(levels) => levels,
        Err(_) => return Ok(false),
    };
    if levels.len() != wanted.len() {
        return Ok(false);
    }
    for (level, places) in levels.iter().zip(wanted.iter()) {
        if level.as_slice() != *places {
            return Ok(false);
        }
    }
    Ok(true)
}

fn is_ring(alloc: Global, build: &[Lines], wanted: &[&str]) -> Result<bool, Fail> {
    is_ring_of(alloc, &texts(alloc, build)?, wanted)
}

fn is_ring_of(alloc: Global, texts: &[ModuleText], wanted: &[&str]) -> Result<bool, Fail> {
    if !is_whole(alloc, texts)? {
        return Ok(false);
    }
    let way = match ranks(alloc, texts) {
        Err(GraphError::Cycle(way)) => way,
        _ => return Ok(false),
    };
    if way.len() != wanted.len() {
        return Ok(false);
    }
    for (name, place) in way.iter().zip(wanted.iter()) {
        if name.as_str() != *place {
            return Ok(false);
        }
    }
    Ok(true)
}

#[test]
fn modules_by_rank_and_name(rt: HostRuntime) -> Result<(), Fail> {
    let build = [
        module("Main", &["C", "B", "Prim"]),
        module("C", &["A", "D"]),
        module("B", &[]),
        module("A", &[]),
        module("D", &["A"]),
    ];
    assert!(rt; is_ranked(rt.alloc(), &build, &[&[3, 2], &[4], &[1], &[0]])?);
    assert!(rt; is_ranked(rt.alloc(), &[module("Main", &[])], &[&[0]])?);
    assert!(rt; is_ranked(rt.alloc(), &[], &[])?);
    Ok(())
}

#[test]
fn a_ring_from_its_least_name(rt: HostRuntime) -> Result<(), Fail> {
    let round = [
        module("B", &["C"]),
        module("C", &["A"]),
        module("A", &["B"]),
    ];
    assert!(rt; is_ring(rt.alloc(), &round, &["A", "B", "C"])?);
    let itself = [module("A", &["B", "A"]), module("B", &[])];
    assert!(rt; is_ring(rt.alloc(), &itself, &["A"])?);
    let led_to = [
        module("A", &["B"]),
        module("B", &["C"]),
        module("C", &["B"]),
    ];
    assert!(rt; is_ring(rt.alloc(), &led_to, &["B", "C"])?);
    Ok(())
}

#[test]
fn the_shortest_way_by_the_earlier_import(rt: HostRuntime) -> Result<(), Fail> {
    let two_rings = [
        module("Main", &["D", "A"]),
        module("D", &["C"]),
        module("A", &["C", "B"]),
        module("C", &["D"]),
        module("B", &["A"]),
    ];
    assert!(rt; is_ring(rt.alloc(), &two_rings, &["A", "B"])?);
    let several_ways = [
        module("A", &["D", "B"]),
        module("D", &["Main", "C"]),
        module("B", &["C"]),
        module("Main", &["B"]),
        module("C", &["A"]),
    ];
    assert!(rt; is_ring(rt.alloc(), &several_ways, &["A", "D", "C"])?);
    let repeated = [
        module("A", &["Prim", "C", "B", "C"]),
        module("B", &["A"]),
        module("C", &["A"]),
    ];
    assert!(rt; is_ring(rt.alloc(), &repeated, &["A", "C"])?);
    Ok(())
}

/// A module that imports another, each by its number.
fn link(alloc: Global, number: u32, next: u32) -> Result<ModuleText, Fail> {
    let name = format!(in alloc; "M{number}")?;
    let import = format!(in alloc; "M{next}")?;
    text(alloc, &module(name.as_str(), &[import.as_str()]))
}

/// A thousand modules, each of which imports the next one, and the last the one before it.
#[test]
fn a_long_chain_to_a_ring(rt: HostRuntime) -> Result<(), Fail> {
    let mut chain = Vec::new(rt.alloc());
    for number in 1000..1999 {
        chain.push(link(rt.alloc(), number, number + 1)?)?;
    }
    chain.push(link(rt.alloc(), 1999, 1998)?)?;
    assert!(rt; is_ring_of(rt.alloc(), &chain, &["M1998", "M1999"])?);
    Ok(())
}

#[test]
fn builds_that_are_not_whole(rt: HostRuntime) -> Result<(), Fail> {
    let alloc = rt.alloc();
    let twice = texts(alloc, &[module("A", &[]), module("A", &[])])?;
    assert!(rt; !is_whole(alloc, &twice)?);
    let missing = texts(alloc, &[module("A", &["B"])])?;
    assert!(rt; !is_whole(alloc, &missing)?);
    let of_prim = texts(alloc, &[module("A", &["Prim"])])?;
    assert!(rt; is_whole(alloc, &of_prim)?);
    Ok(())
}
