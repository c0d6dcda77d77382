//! The instructions of flat terms.

ghost use Rattle.std.specs.Prelude.{◌≡◌, ◌+◌, ◌++◌, IfOk, OnOk, length, vec_len};
ghost use Rattle.qtt_closure.specs.View.{flat_term, flat_terms, flat_branches, function as function_of};
ghost use Rattle.qtt_code.specs.Instruction.{Instr as instruction};
ghost use Rattle.qtt_code.specs.View.{instr as instr_of, instrs, block as block_of};
ghost use Rattle.qtt_lower.specs.Lowering.{block as lowered_block, code as code_of, given, joins, variable as variable_of, width as width_of};
ghost use Rattle.qtt_lower.specs.Lowered.{all_code, all_width, branches_width, field_counts, switch_code};
ghost use Rattle.qtt_lower.specs.Programs.{entry};
ghost use Rattle.qtt_lower.specs.View.{bases as bases_of, position as position_of};

use crate::bases::Bases;
use crate::position::Position;
use crate::width::branch_places;
use qtt_base::{GlobalId, MemoryError};
use qtt_closure::{FlatBranch, FlatTerm, Function};
use qtt_code::{Block, Instr};
use qtt_prims::Lit;
use std::alloc::Global;

/// The block of a function of a definition.
pub fn block(
    alloc: Global,
    bases: &Bases,
    owner: GlobalId,
    function: &Function,
) -> Result<Block, MemoryError>
    ensures { IfOk result (λ b. block_of b ≡ lowered_block (entry (bases_of bases.now)) owner
        (function_of function.now)) }
{
    let captured = function.captured;
    let takes = function.takes;
    let depth = captured.checked_add(takes).ok_or(MemoryError)?;
    let mut code = Vec::new(alloc);
    lower(
        alloc,
        bases,
        captured,
        Position::Tail,
        depth,
        &function.body,
        &mut code,
    )?;
    Ok(Block {
        owner,
        captured,
        takes,
        code,
    })
}

/// The variable of this level, counted from the outermost one.
fn variable(captured: u32, level: u32) -> Instr
    ensures { instr_of result ≡ variable_of captured level }
{
    if level < captured {
        Instr::Captured(level)
    } else {
        Instr::Local(level - captured)
    }
}

fn literal(lit: &Lit) -> Result<Instr, MemoryError>
    ensures { IfOk result (λ i. instr_of i ≡ instruction.literal lit.now) }
{
    match lit {
        Lit::Int(n) => Ok(Instr::Int(*n)),
        Lit::Text(text) => Ok(Instr::Text(text.copy()?)),
    }
}

/// How many values an instruction takes.
fn count(parts: &[FlatTerm]) -> Result<u32, MemoryError>
    ensures { IfOk result (λ n. n ≡ length (flat_terms parts.now)) }
{
    u32::try_from(parts.len()).map_err(|_| MemoryError)
}

/// Puts an instruction that pushes a value, and in tail position gives it back.
fn give(code: &mut Vec<Instr>, position: Position, instr: Instr) -> Result<(), MemoryError>
    ensures code { OnOk result
        (instrs code.new.items ≡ instrs code.old.items ++ given (position_of position)
        (instr_of instr)) }
    ensures count { OnOk result
        (vec_len code.new ≡ vec_len code.old + length
        (given (position_of position) (instr_of instr))) }
{
    code.push(instr)?;
    match position {
        Position::Inner => {}
        Position::Tail => code.push(Instr::Return)?,
    }
    Ok(())
}

/// Puts what follows a branch with so many fields, before the others of a Case that ends at that
/// place.
fn join(
    code: &mut Vec<Instr>,
    position: Position,
    fields: u32,
    others: &[FlatBranch],
    end: u32,
) -> Result<(), MemoryError>
    ensures code { OnOk result
        (instrs code.new.items ≡ instrs code.old.items ++ joins (position_of position) fields
        (field_counts (flat_branches others.now)) end) }
    ensures count { OnOk result
        (vec_len code.new ≡ vec_len code.old + length
        (joins (position_of position) fields (field_counts (flat_branches others.now)) end)) }
{
    match position {
        Position::Tail => {}
        Position::Inner => {
            if fields > 0 {
                code.push(Instr::Leave(fields))?;
            }
            if !others.is_empty() {
                code.push(Instr::Jump(end))?;
            }
        }
    }
    Ok(())
}

/// Puts a term's code. The term has so many variables, of which the outermost ones are captured.
#[cycle(lower)]
#[tactic(auto, using(crate::proofs::Lists::codes_of_forms))]
fn lower(
    alloc: Global,
    bases: &Bases,
    captured: u32,
    position: Position,
    depth: u32,
    source: &FlatTerm,
    code: &mut Vec<Instr>,
) -> Result<(), MemoryError>
    ensures code { OnOk result
        (instrs code.new.items ≡ instrs code.old.items ++ code_of
        (entry (bases_of bases.now)) captured (position_of position) depth (vec_len code.old)
        (flat_term source.now)) }
    ensures count { OnOk result
        (vec_len code.new ≡ vec_len code.old + width_of (position_of position)
        (flat_term source.now)) }
{
    match source {
        FlatTerm::Var(index) => {
            let level = depth.saturating_sub(*index).saturating_sub(1);
            give(code, position, variable(captured, level))
        }
        FlatTerm::Closure(number, values) => {
            lower_operands(alloc, bases, captured, depth, values, code)?;
            give(code, position, Instr::Closure(*number, count(values)?))
        }
        FlatTerm::App(f, a) => {
            lower(alloc, bases, captured, Position::Inner, depth, f, code)?;
            lower(alloc, bases, captured, Position::Inner, depth, a, code)?;
            code.push(match position {
                Position::Inner => Instr::Call,
                Position::Tail => Instr::TailCall,
            })?;
            Ok(())
        }
        FlatTerm::Force(f) => {
            lower(alloc, bases, captured, Position::Inner, depth, f, code)?;
            code.push(match position {
                Position::Inner => Instr::Force,
                Position::Tail => Instr::TailForce,
            })?;
            Ok(())
        }
        FlatTerm::Def(id) => {
            let block = bases.entry(*id);
            code.push(match position {
                Position::Inner => Instr::Enter(block),
                Position::Tail => Instr::TailEnter(block),
            })?;
            Ok(())
        }
        FlatTerm::Con(tag, fields) => {
            lower_operands(alloc, bases, captured, depth, fields, code)?;
            give(code, position, Instr::Con(*tag, count(fields)?))
        }
        FlatTerm::Case(scrutinee, branches) => {
            lower(
                alloc,
                bases,
                captured,
                Position::Inner,
                depth,
                scrutinee,
                code,
            )?;
            lower_branches(alloc, bases, captured, position, depth, branches, code)
        }
        FlatTerm::Lit(lit) => give(code, position, literal(lit)?),
        FlatTerm::Prim(prim, args) => {
            lower_operands(alloc, bases, captured, depth, args, code)?;
            give(code, position, Instr::Prim(*prim))
        }
        FlatTerm::Act(kind, args) => {
            lower_operands(alloc, bases, captured, depth, args, code)?;
            give(code, position, Instr::Action(*kind, count(args)?))
        }
        FlatTerm::Ty => give(code, position, Instr::Type),
        FlatTerm::Trap | FlatTerm::Tape(_) => {
            code.push(Instr::Trap)?;
            Ok(())
        }
    }
}

/// Puts the codes of terms, one behind the other.
#[cycle(lower)]
#[tactic(auto, using(crate::proofs::Lists::codes_of_forms))]
fn lower_operands(
    alloc: Global,
    bases: &Bases,
    captured: u32,
    depth: u32,
    sources: &[FlatTerm],
    code: &mut Vec<Instr>,
) -> Result<(), MemoryError>
    ensures code { OnOk result
        (instrs code.new.items ≡ instrs code.old.items ++ all_code
        (entry (bases_of bases.now)) captured depth (vec_len code.old) (flat_terms sources.now)) }
    ensures count { OnOk result
        (vec_len code.new ≡ vec_len code.old + all_width (flat_terms sources.now)) }
{
    for source in sources {
        lower(alloc, bases, captured, Position::Inner, depth, source, code)?;
    }
    Ok(())
}

/// Puts the switch to the branches of a Case, and their codes.
#[cycle(lower)]
#[tactic(auto, using(crate::proofs::Lists::codes_of_forms))]
fn lower_branches(
    alloc: Global,
    bases: &Bases,
    captured: u32,
    position: Position,
    depth: u32,
    branches: &[FlatBranch],
    code: &mut Vec<Instr>,
) -> Result<(), MemoryError>
    ensures code { OnOk result
        (instrs code.new.items ≡ instrs code.old.items ++ switch_code
        (entry (bases_of bases.now)) captured (position_of position) depth (vec_len code.old + 1)
        (flat_branches branches.now)) }
    ensures count { OnOk result
        (vec_len code.new ≡ vec_len code.old + 1 + branches_width (position_of position)
        (flat_branches branches.now)) }
{
    let first = code.len().checked_add(1).ok_or(MemoryError)?;
    let (places, end) = branch_places(alloc, position, first, branches)?;
    code.push(Instr::Switch(places))?;
    for (k, branch) in branches.iter().enumerate() {
        let inner = depth.checked_add(branch.fields).ok_or(MemoryError)?;
        lower(alloc, bases, captured, position, inner, &branch.body, code)?;
        join(code, position, branch.fields, &branches[k + 1..], end)?;
    }
    Ok(())
}
