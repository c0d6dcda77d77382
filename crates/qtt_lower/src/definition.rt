//! The size and the blocks of one definition.

ghost use Rattle.std.specs.Prelude.{◌≡◌, ◌+◌, ◌<◌, ◌^◌, IfOk, option_map};
ghost use Rattle.std.specs.List.{sum_by};
ghost use Rattle.qtt_closure.specs.View.{function_list};
ghost use Rattle.qtt_erase.specs.View.{lean};
ghost use Rattle.qtt_erase.specs.Erasure.{erased_bodies};
ghost use Rattle.qtt_term.specs.Globals.{env as env_of};
ghost use Rattle.qtt_code.specs.View.{blocks as blocks_view};
ghost use Rattle.qtt_lower.specs.Sizes.{blocks_of, body_width, capped as capped_at, size};
ghost use Rattle.qtt_lower.specs.View.{bases as bases_of};

use crate::bases::Bases;
use crate::lowering::block;
use crate::position::Position;
use crate::width::{sum, width};
use qtt_base::{GlobalId, Limits, MemoryError};
use qtt_closure::{Function, convert, convert_from};
use qtt_code::Block;
use qtt_erase::{Lean, erase};
use qtt_term::Globals;
use qtt_usage::mult::Mult;
use std::alloc::Global;

/// How many blocks and instructions a definition has, each at most one above its limit.
#[derive(Clone, Copy, Debug, PartialEq, Eq)]
pub struct Size {
    pub blocks: u64,
    pub instrs: u64,
}

/// The size of a definition; 0 for one at 0.
pub fn size_of(alloc: Global, env: &Globals, id: GlobalId) -> Result<Size, MemoryError>
    ensures { IfOk result (λ s. s ≡ size (env_of env.now) id) }
{
    let Some(lean) = erased_body(alloc, env, id)? else {
        return Ok(Size {
            blocks: 0,
            instrs: 0,
        });
    };
    let limits = Limits::standard();
    let flat = convert(alloc, &lean)?;
    let instrs = total_width(&flat.functions)?;
    Ok(Size {
        blocks: capped(limits.blocks, flat.functions.len() as u64),
        instrs: capped(limits.instructions, instrs as u64),
    })
}

/// The blocks of a definition; none for one at 0.
#[tactic(auto, using(crate::proofs::Sizes::sizes))]
pub fn lower_one(
    alloc: Global,
    env: &Globals,
    id: GlobalId,
    bases: &Bases,
) -> Result<Vec<Block>, MemoryError>
    ensures { IfOk result (λ v. blocks_view v.items ≡ blocks_of (bases_of bases.now) id
        (erased_bodies (env_of env.now) id)) }
{
    let mut blocks = Vec::new(alloc);
    let Some(lean) = erased_body(alloc, env, id)? else {
        return Ok(blocks);
    };
    let flat = convert_from(alloc, bases.entry(id), &lean)?;
    for function in &flat.functions {
        blocks.push(block(alloc, bases, id, function)?)?;
    }
    Ok(blocks)
}

fn capped(limit: u64, count: u64) -> u64
    requires { limit + 1 < 2 ^ 64 }
    ensures { result ≡ capped_at limit count }
{
    count.min(limit + 1)
}

/// How many instructions functions have.
fn total_width(functions: &[Function]) -> Result<usize, MemoryError>
    ensures { IfOk result (λ n. n ≡ sum_by body_width (function_list functions.now)) }
{
    let mut total = 0;
    for function in functions {
        total = sum(total, width(Position::Tail, &function.body)?)?;
    }
    Ok(total)
}

/// What is left of the body of a definition that is not 0.
#[tactic(auto, using(crate::proofs::Sizes::sizes))]
fn erased_body(alloc: Global, env: &Globals, id: GlobalId) -> Result<Option<Lean>, MemoryError>
    ensures { IfOk result (λ o. option_map lean o ≡ erased_bodies (env_of env.now) id) }
{
    let Some(definition) = env.definition(id) else {
        return Ok(None);
    };
    match (definition.mult, &definition.body) {
        (Mult::Zero, _) | (_, None) => Ok(None),
        (Mult::One | Mult::Many, Some(body)) => Ok(Some(erase(alloc, env, body)?)),
    }
}
