//! Instructions.

use qtt_prims::{ActKind, Primitive, Text};

/// One instruction. Places count from 0 in a block.
#[derive(Debug, Drop)]
pub enum Instr {
    /// Pushes a local; local 0 is the argument where the block takes one.
    Local(u32),
    /// Pushes a captured value, the outermost being 0.
    Captured(u32),
    Int(i64),
    Text(Text),
    Type,
    /// Takes so many values and pushes a closure of that block.
    Closure(u32, u32),
    /// Takes so many values and pushes a constructor of that tag.
    Con(u32, u32),
    /// Takes so many values and pushes an action.
    Action(ActKind, u32),
    /// Takes an argument and a function, and enters the function.
    Call,
    TailCall,
    /// Takes a closure without argument, and enters it.
    Force,
    TailForce,
    /// Enters a definition's block.
    Enter(u32),
    TailEnter(u32),
    /// Takes the arguments of a primitive and pushes its answer, or traps.
    Prim(Primitive),
    /// Takes a constructor, adds its fields to the locals, and goes to the place of its tag.
    Switch(Vec<u32>),
    /// Drops the last so many locals.
    Leave(u32),
    /// Goes to that place.
    Jump(u32),
    /// Gives the newest value back.
    Return,
    Trap,
}
