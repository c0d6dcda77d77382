//! The program of an environment.

ghost use Rattle.std.specs.Prelude.{◌≡◌, ◌+◌, ◌^◌, ◌<◌, ◌≤◌, IfOk, MatchResult, None, OnOk, Some, map, option_map, IsTrue};
ghost use Rattle.qtt_base.specs.Limits.{standard};
ghost use Rattle.qtt_code.specs.View.{blocks as blocks_view, program as program_view};
ghost use Rattle.qtt_term.specs.Globals.{env as env_of};
ghost use Rattle.qtt_term.specs.Keyed.{ids_differ, with_id};
ghost use Rattle.qtt_lower.specs.Programs.{base_id};
ghost use Rattle.qtt_lower.specs.Whole.{compiled_bases, compiled_program, IsProgramOf, FailsAt};
ghost use Rattle.qtt_erase.specs.Erasure.{erased_bodies};
ghost use Rattle.qtt_lower.specs.Sizes.{blocks_of, capped};
ghost use Rattle.qtt_lower.specs.Compiled.{joined as joined_blocks, definition_ids, excess, firsts_from, sized, total_blocks, total_instructions};
ghost use Rattle.qtt_lower.specs.View.{bases as bases_of, part_list};

use crate::bases::Bases;
use crate::definition::{Size, lower_one, size_of};
use crate::grouped::grouped;
use qtt_base::{GlobalId, Limits, MemoryError, Quantity};
use qtt_code::{Block, Program};
use qtt_term::Globals;
use std::alloc::{AllocError, Global};
use std::thread::Threads;
use thiserror::Error;

/// A program, and where the code of each definition begins.
#[derive(Debug, Drop)]
pub struct Compiled {
    program: Program,
    bases: Bases,
}

impl Compiled {
    pub fn program(&self) -> &Program
        ensures { program_view result.now ≡ compiled_program self.now }
    {
        &self.program
    }

    /// The first block of a definition that is not 0.
    pub fn entry(&self, id: GlobalId) -> Option<u32>
        ensures { result ≡ option_map (λ b. b.block)
            (with_id base_id id (compiled_bases self.now)) }
    {
        self.bases.first(id)
    }
}

/// Why an environment has no program.
#[derive(Clone, Copy, Debug, PartialEq, Eq, Error)]
pub enum LowerError {
    /// What is above its limit, and one above the limit.
    #[error("the program is too large")]
    Limit(Quantity, u64),
    #[error("out of memory")]
    Memory,
}

impl From<AllocError> for LowerError {
    ghost use Rattle.qtt_lower.specs.declared.program.LowerError.TheVariants.{Memory};

    ghost from_gives = { λ _ e. e ≡ Memory };

    fn from(_error: AllocError) -> LowerError {
        LowerError::Memory
    }
}

impl From<MemoryError> for LowerError {
    ghost use Rattle.qtt_lower.specs.declared.program.LowerError.TheVariants.{Memory};

    ghost from_gives = { λ _ e. e ≡ Memory };

    fn from(_error: MemoryError) -> LowerError {
        LowerError::Memory
    }
}

/// The ids of all definitions, in ascending order.
fn definition_ids_of(alloc: Global, env: &Globals) -> Result<Vec<GlobalId>, MemoryError>
    ensures differ { OnOk result (IsTrue (ids_differ (definition_ids env.now))) }
    ensures ids { IfOk result (λ v. v.items ≡ definition_ids env.now) }
{
    let definitions = env.definitions();
    let mut ids = Vec::with_capacity(alloc, definitions.len())?;
    for definition in definitions {
        ids.push(definition.id)?;
    }
    Ok(ids)
}

/// The smaller of a sum and one above the limit.
fn raised(limit: u64, total: u64, more: u64) -> u64
    requires { limit + 1 < 2 ^ 64 }
    ensures { result ≡ capped limit (total + more) }
{
    total.saturating_add(more).min(limit + 1)
}

/// Whether a program with definitions of these sizes is within the limits.
#[tactic(auto, using(crate::proofs::Excess::excesses))]
fn within_limits(sizes: &[(GlobalId, Size)]) -> Result<(), LowerError>
    ensures few { OnOk result (total_blocks sizes.now ≤ standard.blocks) }
    ensures excess { MatchResult result
        (λ _. excess (total_blocks sizes.now) (total_instructions sizes.now) ≡ None)
        (λ e. excess (total_blocks sizes.now) (total_instructions sizes.now) ≡ Some e) }
{
    let limits = Limits::standard();
    let mut blocks = 0;
    let mut instrs = 0;
    for (_, size) in sizes {
        blocks = raised(limits.blocks, blocks, size.blocks);
        instrs = raised(limits.instructions, instrs, size.instrs);
    }
    if blocks > limits.blocks {
        return Err(LowerError::Limit(Quantity::Blocks, limits.blocks + 1));
    }
    if instrs > limits.instructions {
        return Err(LowerError::Limit(Quantity::Instructions, limits.instructions + 1));
    }
    Ok(())
}

/// The first block of each definition that has one.
#[tactic(auto, using(crate::proofs::Excess::excesses))]
fn bases(alloc: Global, sizes: &[(GlobalId, Size)]) -> Result<Bases, MemoryError>
    requires { total_blocks sizes.now ≤ standard.blocks }
    ensures { IfOk result (λ b. b.firsts.items ≡ firsts_from 0 sizes.now) }
{
    let mut firsts = Vec::new(alloc);
    let mut next = 0;
    for (id, size) in sizes {
        if size.blocks > 0 {
            firsts.push((*id, next))?;
            next += size.blocks as u32;
        }
    }
    Ok(Bases { firsts })
}

/// The size of each definition.
fn sizes<R: Threads + Sync>(
    rt: &R,
    alloc: Global,
    env: &Globals,
    ids: &[GlobalId],
    jobs: usize,
) -> Result<Vec<(GlobalId, Size)>, MemoryError>
    requires { 0 < jobs }
    ensures { IfOk result (λ v. v.items ≡ map (sized (env_of env.now)) ids.now) }
{
    let work = |id: GlobalId| -> Result<(GlobalId, Size), MemoryError>
        ensures { IfOk result (λ s. s ≡ sized (env_of env.entry.now) id) }
    { Ok((id, size_of(alloc, env, id)?)) };
    grouped(rt, alloc, ids, jobs, &work)
}

/// The blocks of each definition.
fn parts<R: Threads + Sync>(
    rt: &R,
    alloc: Global,
    env: &Globals,
    ids: &[GlobalId],
    jobs: usize,
    bases: &Bases,
) -> Result<Vec<Vec<Block>>, MemoryError>
    requires { 0 < jobs }
    ensures { IfOk result (λ v. part_list v.items ≡ map
        (λ d. blocks_of (bases_of bases.now) d (erased_bodies (env_of env.now) d)) ids.now) }
{
    let work = |id: GlobalId| -> Result<Vec<Block>, MemoryError>
        ensures { IfOk result (λ v. blocks_view v.items ≡ blocks_of (bases_of bases.entry.now) id
            (erased_bodies (env_of env.entry.now) id)) }
    { lower_one(alloc, env, id, bases) };
    grouped(rt, alloc, ids, jobs, &work)
}

/// Blocks, one list behind the other.
#[tactic(auto, using(crate::proofs::Joining::joinings))]
fn joined(alloc: Global, parts: Vec<Vec<Block>>) -> Result<Vec<Block>, MemoryError>
    ensures { IfOk result (λ v. blocks_view v.items ≡ joined_blocks (part_list parts.items)) }
{
    let mut blocks = Vec::new(alloc);
    for mut part in parts {
        blocks.append(&mut part)?;
    }
    Ok(blocks)
}

/// The program of an environment. Its definitions are worked on in groups of at most so many,
/// one thread each, and the answer is the same for each number of them.
#[tactic(auto, using(crate::proofs::Joining::joinings))]
pub fn lower_all<R: Threads + Sync>(
    rt: &R,
    alloc: Global,
    env: &Globals,
    jobs: u32,
) -> Result<Compiled, LowerError>
    requires { 0 < jobs }
    ensures { MatchResult result (IsProgramOf env.now) (FailsAt env.now) }
{
    let ids = definition_ids_of(alloc, env)?;
    let sizes = sizes(rt, alloc, env, &ids, jobs as usize)?;
    within_limits(&sizes)?;
    let bases = bases(alloc, &sizes)?;
    let parts = parts(rt, alloc, env, &ids, jobs as usize, &bases)?;
    let blocks = joined(alloc, parts)?;
    Ok(Compiled {
        program: Program { blocks },
        bases,
    })
}
