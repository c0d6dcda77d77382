//! What builds come to.

ghost use Rattle.std.specs.Prelude.{◌<◌};

use qtt_base::Name;
use qtt_build::{BuildError, Built, build_all};
use qtt_diag::message;
use qtt_edge::{Gate, MapVault, NeverFails, OpenGate, Vault};
use std::alloc::Global;
use std::collections::BTreeMap;
use std::test::Fail;
use std::thread::Threads;

/// A module's name and its text.
#[derive(Clone, Copy)]
pub struct Stored<'a> {
    pub name: &'a str,
    pub text: &'a str,
}

/// A vault of these modules.
pub fn vault_of(alloc: Global, modules: &[Stored]) -> Result<MapVault<NeverFails>, Fail> {
    let mut texts = BTreeMap::new(alloc);
    for stored in modules {
        let name = String::from_str(alloc, stored.name)?;
        texts.insert(name, stored.text.as_bytes().to_vec(alloc)?)?;
    }
    Ok(MapVault::new(texts))
}

/// The modules of a build in their order, each with the number of its definitions, and the place
/// of the named one.
fn listed(alloc: Global, built: &Built) -> Result<String, Fail> {
    let mut out = String::new(alloc);
    for checked in &built.order {
        let name = &checked.exports.name;
        let count = checked.definitions;
        write!(out, "{name} {count}; ")?;
    }
    write!(out, "root {}", built.root)?;
    Ok(out)
}

/// What is built, or why there is none.
fn told(alloc: Global, answer: &Result<Built, BuildError>) -> Result<String, Fail> {
    match answer {
        Ok(built) => listed(alloc, built),
        Err(BuildError::Refused(refusal)) => {
            let line = message(alloc, refusal)?;
            Ok(String::from_str(alloc, str::from_utf8(&line)?)?)
        }
        Err(BuildError::Absent(name)) => Ok(format!(in alloc; "no module {name}")?),
        Err(BuildError::VaultFault) => Ok(String::from_str(alloc, "vault failed")?),
        Err(BuildError::Memory) => Ok(String::from_str(alloc, "out of memory")?),
    }
}

/// What the build of the named module of a vault comes to, with 100,000 contractions for each
/// question.
pub fn outcome<R: Threads + Sync, V: Vault, G: Gate>(
    rt: &R,
    alloc: Global,
    vault: &mut V,
    gate: &G,
    root: &str,
    jobs: u32,
) -> Result<String, Fail>
    requires { 0 < jobs }
{
    let root = Name::new(alloc, root)?;
    let answer = build_all(rt, alloc, vault, gate, &root, 100_000, jobs);
    told(alloc, &answer)
}

/// What the build of one of these modules comes to.
pub fn outcome_among<R: Threads + Sync>(
    rt: &R,
    alloc: Global,
    modules: &[Stored],
    root: &str,
    jobs: u32,
) -> Result<String, Fail>
    requires { 0 < jobs }
{
    let mut vault = vault_of(alloc, modules)?;
    outcome(rt, alloc, &mut vault, &OpenGate, root, jobs)
}

/// What the build of one of these modules comes to, where it is the same with 1, 2 and 64 jobs.
pub fn outcome_for_all<R: Threads + Sync>(
    rt: &R,
    alloc: Global,
    modules: &[Stored],
    root: &str,
) -> Result<String, Fail> {
    let one = outcome_among(rt, alloc, modules, root, 1)?;
    let two = outcome_among(rt, alloc, modules, root, 2)?;
    let many = outcome_among(rt, alloc, modules, root, 64)?;
    if one.as_str() != two.as_str() || one.as_str() != many.as_str() {
        return Err(Fail::from("the number of jobs changes what is built"));
    }
    Ok(one)
}
