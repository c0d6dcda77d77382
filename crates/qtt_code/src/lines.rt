//! The listing of a program.

ghost use Rattle.std.specs.Prelude.{◌≡◌, ◌++◌, IfOk, codes, flat_map};
ghost use Rattle.qtt_prims.specs.PrimNames.{action_name, prim_name};
ghost use Rattle.qtt_term.specs.Globals.{definitions as definitions_of};
ghost use Rattle.qtt_code.specs.Listing.{block_lines as lines_of_block, block_text, instr_line as line_of_instr, instr_text as text_of_instr, line, listing as listing_of, next_number, owner_name as name_of_owner, quoted as quoted_text};
ghost use Rattle.qtt_code.specs.View.{block as block_of, instr as instr_of, program as program_of};

use crate::block::{Block, Program};
use crate::instr::Instr;
use qtt_base::{GlobalId, MemoryError};
use qtt_prims::{ActKind, Primitive};
use qtt_term::globals::Globals;
use std::alloc::Global;

/// For each block a line that names it, and then a line for each instruction. The owner is `_`
/// where `names` has no such definition.
pub fn listing(alloc: Global, program: &Program, names: &Globals) -> Result<Vec<u8>, MemoryError>
    ensures { IfOk result (λ text. text.items ≡ listing_of (definitions_of names.now)
        (program_of program.now)) }
{
    let mut text = Vec::new(alloc);
    for (number, block) in program.blocks.iter().enumerate() {
        text.extend_from_slice(&block_lines(alloc, names, number, block)?)?;
    }
    Ok(text)
}

fn owner_name(names: &Globals, owner: GlobalId) -> &str
    ensures { result.now ≡ name_of_owner (definitions_of names.now) owner }
{
    match names.definition(owner) {
        Some(definition) => definition.name.as_str(),
        None => "_",
    }
}

/// The lines of a block.
fn block_lines(
    alloc: Global,
    names: &Globals,
    number: usize,
    block: &Block,
) -> Result<Vec<u8>, MemoryError>
    ensures { IfOk result (λ text. text.items ≡ lines_of_block (definitions_of names.now) number
        (block_of block.now)) }
{
    let mut text = heading(alloc, names, number, block)?;
    for instr in &block.code {
        text.extend_from_slice(&instr_line(alloc, instr)?)?;
    }
    Ok(text)
}

/// The line that names a block.
fn heading(
    alloc: Global,
    names: &Globals,
    number: usize,
    block: &Block,
) -> Result<Vec<u8>, MemoryError>
    ensures { IfOk result (λ text. text.items ≡ line
        (block_text (definitions_of names.now) number (block_of block.now))) }
{
    let owner = owner_name(names, block.owner);
    let captured = block.captured;
    let takes = block.takes;
    Ok(format!(in alloc;
        "block {number} {owner} captured {captured} takes {takes}\n"
    )?.into_bytes())
}

fn instr_line(alloc: Global, instr: &Instr) -> Result<Vec<u8>, MemoryError>
    ensures { IfOk result (λ text. text.items ≡ line_of_instr (instr_of instr.now)) }
{
    let mut text = Vec::new(alloc);
    text.extend_from_slice(b"  ")?;
    text.extend_from_slice(&instr_text(alloc, instr)?)?;
    text.push(b'\n')?;
    Ok(text)
}

fn instr_text(alloc: Global, instr: &Instr) -> Result<Vec<u8>, MemoryError>
    ensures { IfOk result (λ text. text.items ≡ text_of_instr (instr_of instr.now)) }
{
    match instr {
        Instr::Local(place) => numbered(alloc, "local", *place),
        Instr::Captured(place) => numbered(alloc, "captured", *place),
        Instr::Int(number) => Ok(format!(in alloc; "int {number}")?.into_bytes()),
        Instr::Text(text) => quoted(alloc, text.as_str()),
        Instr::Type => words(alloc, "type"),
        Instr::Closure(block, count) => numbered_twice(alloc, "closure", *block, *count),
        Instr::Con(tag, count) => numbered_twice(alloc, "con", *tag, *count),
        Instr::Action(kind, count) => action_text(alloc, *kind, *count),
        Instr::Call => words(alloc, "call"),
        Instr::TailCall => words(alloc, "tail-call"),
        Instr::Force => words(alloc, "force"),
        Instr::TailForce => words(alloc, "tail-force"),
        Instr::Enter(block) => numbered(alloc, "enter", *block),
        Instr::TailEnter(block) => numbered(alloc, "tail-enter", *block),
        Instr::Prim(prim) => prim_text(alloc, *prim),
        Instr::Switch(places) => switch_text(alloc, places),
        Instr::Leave(count) => numbered(alloc, "leave", *count),
        Instr::Jump(place) => numbered(alloc, "jump", *place),
        Instr::Return => words(alloc, "return"),
        Instr::Trap => words(alloc, "trap"),
    }
}

fn words(alloc: Global, words: &str) -> Result<Vec<u8>, MemoryError>
    ensures { IfOk result (λ text. text.items ≡ words.now) }
{
    Ok(String::from_str(alloc, words)?.into_bytes())
}

fn numbered(alloc: Global, words: &str, number: u32) -> Result<Vec<u8>, MemoryError>
    ensures { IfOk result (λ text. text.items ≡ words.now ++ next_number number) }
{
    Ok(format!(in alloc; "{words} {number}")?.into_bytes())
}

fn numbered_twice(
    alloc: Global,
    words: &str,
    first: u32,
    second: u32,
) -> Result<Vec<u8>, MemoryError>
    ensures { IfOk result (λ text. text.items ≡ words.now ++ next_number first ++ next_number
        second) }
{
    Ok(format!(in alloc; "{words} {first} {second}")?.into_bytes())
}

fn action_text(alloc: Global, kind: ActKind, count: u32) -> Result<Vec<u8>, MemoryError>
    ensures { IfOk result (λ text. text.items ≡ codes "action " ++ action_name kind ++
        next_number count) }
{
    let name = kind.name();
    Ok(format!(in alloc; "action {name} {count}")?.into_bytes())
}

fn prim_text(alloc: Global, prim: Primitive) -> Result<Vec<u8>, MemoryError>
    ensures { IfOk result (λ text. text.items ≡ codes "prim " ++ prim_name prim) }
{
    let name = prim.name();
    Ok(format!(in alloc; "prim {name}")?.into_bytes())
}

/// A text between quotes, with four escapes.
fn quoted(alloc: Global, text: &str) -> Result<Vec<u8>, MemoryError>
    ensures { IfOk result (λ quoted. quoted.items ≡ codes "text " ++ quoted_text text.now) }
{
    let mut quoted = Vec::new(alloc);
    quoted.extend_from_slice(b"text \"")?;
    for byte in text.as_bytes() {
        match *byte {
            b'\n' => quoted.extend_from_slice(b"\\n")?,
            b'\t' => quoted.extend_from_slice(b"\\t")?,
            b'\\' => quoted.extend_from_slice(b"\\\\")?,
            b'"' => quoted.extend_from_slice(b"\\\"")?,
            byte => quoted.push(byte)?,
        }
    }
    quoted.push(b'"')?;
    Ok(quoted)
}

fn switch_text(alloc: Global, places: &[u32]) -> Result<Vec<u8>, MemoryError>
    ensures { IfOk result (λ text. text.items ≡ codes "switch" ++ flat_map next_number places.now) }
{
    let mut text = Vec::new(alloc);
    text.extend_from_slice(b"switch")?;
    for place in places {
        text.extend_from_slice(&numbered(alloc, "", *place)?)?;
    }
    Ok(text)
}
