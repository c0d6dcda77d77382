//! The build of a named module.

ghost use Rattle.std.specs.Prelude.{◌≡◌, ◌<◌, Option, Ok, IsErrOf};
ghost use Rattle.qtt_edge.specs.Counts.{Counts};
ghost use Rattle.qtt_load.specs.Reading.{Texts};
ghost use Rattle.qtt_load.specs.Answer.{Loads, trees};
ghost use Rattle.qtt_build.specs.Answer.{IsAbsent, IsBuild, IsComplete, IsJudged, IsMeant};
ghost use Rattle.qtt_build.specs.declared.errors.BuildError.TheVariants.{VaultFault};

use crate::building::Building;
use crate::built::Built;
use crate::errors::BuildError;
use crate::laws::{build_laws, roots_are_built};
use crate::order::place;
use crate::ranks::built_by_rank;
use qtt_base::Name;
use qtt_diag::laws::kinds_agree;
use qtt_edge::{Gate, Vault};
use qtt_load::laws::loaded_are_builds;
use qtt_load::{Loaded, OrderError, by_rank, load};
use qtt_module::ModuleError;
use std::alloc::Global;
use std::thread::Threads;

/// The build of what is loaded.
fn built<R: Threads + Sync, G: Gate>(
    rt: &R,
    alloc: Global,
    gate: &G,
    loaded: &Loaded,
    root: &Name,
    budget: u64,
    at_most: usize,
) -> Result<Built, ModuleError>
    requires some { 0 < at_most }
    requires loads { (told : Option Texts) × Loads told root.now (Ok (trees loaded.now)) }
    ensures { (told : Option Texts) → Loads told root.now (Ok (trees loaded.now)) →
        IsJudged told root.now budget result }
{
    loaded_are_builds();
    roots_are_built();
    kinds_agree();
    let levels = match by_rank(alloc, loaded) {
        Ok(levels) => levels,
        Err(OrderError::Refused(refusal)) => return Err(ModuleError::Refused(refusal)),
        Err(OrderError::Memory) => return Err(ModuleError::Memory),
    };
    let texts = loaded.texts();
    let Building { globals, order } = built_by_rank(
        rt, alloc, gate, texts, &levels, budget, at_most,
    )?;
    let Some(root) = place(&order, root) else {
        unreachable!();
    };
    Ok(Built {
        env: globals,
        order,
        root,
    })
}

/// The build of the named module: it and what imports lead to from it are read, put in order by
/// rank and name, and judged rank by rank, at most `jobs` of a rank at once. What it answers is a
/// function of the texts, the name and the budget of each question, and not of `jobs`. It is sound
/// and complete: what is built is what the modules declare by the rules, and what they declare is
/// built, unless a question takes more than the budget.
pub fn build_all<R: Threads + Sync, V: Vault, G: Gate>(
    rt: &R,
    alloc: Global,
    vault: &mut V,
    gate: &G,
    root: &Name,
    budget: u64,
    jobs: u32,
) -> Result<Built, BuildError>
    requires { 0 < jobs }
    ensures builds { IsBuild (V.texts vault.old) root.now budget result }
    ensures meant { IsMeant (V.texts vault.old) root.now budget result }
    ensures complete { IsComplete (V.texts vault.old) root.now result }
    ensures same { V.texts vault.new ≡ V.texts vault.old }
    ensures failed { Counts (V.faults vault.old) (V.faults vault.new)
        (IsErrOf result VaultFault) }
    ensures absent { Counts (V.misses vault.old) (V.misses vault.new) (IsAbsent result) }
{
    kinds_agree();
    build_laws();
    let loaded = load(alloc, vault, root)?;
    Ok(built(rt, alloc, gate, &loaded, root, budget, jobs as usize)?)
}
