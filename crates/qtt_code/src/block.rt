//! Blocks and programs.

use crate::instr::Instr;
use qtt_base::GlobalId;

/// The code of a function, or of a definition.
#[derive(Debug, Drop)]
pub struct Block {
    /// The definition that the block is of.
    pub owner: GlobalId,
    /// How many values a closure of the block captures.
    pub captured: u32,
    /// 1 where the block takes an argument, else 0.
    pub takes: u32,
    pub code: Vec<Instr>,
}

/// Blocks, numbered from 0.
#[derive(Debug, Drop)]
pub struct Program {
    pub blocks: Vec<Block>,
}
