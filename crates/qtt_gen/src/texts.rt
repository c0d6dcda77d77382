//! The name and the text of one module, line by line.

ghost use Rattle.std.specs.Prelude.{◌≡◌, ◌<◌, IfOk, OnOk, decimal, map, pos};
ghost use Rattle.std.specs.Fmt.{signed_decimal};
ghost use Rattle.qtt_gen.specs.Generated as generated;
ghost use Rattle.qtt_gen.specs.Generated.{import_lines, main_text as text_of_main, module_name as name_of_module, module_text as text_of_module, numbered, side, step_text, value as value_of, written};
ghost use Rattle.qtt_gen.specs.Seen.{Adds};

use qtt_base::{MemoryError, Name};
use std::alloc::Global;

/// A name of few bytes.
pub fn name_of(alloc: Global, text: &str) -> Result<Name, MemoryError>
    ensures { IfOk result (λ name. name ≡ text.now) }
{
    Name::new(alloc, text).map_err(|_| MemoryError)
}

#[tactic(auto, unfolding(crate::specs::Generated::numbered))]
pub fn module_name(alloc: Global, i: u32, j: u32) -> Result<Name, MemoryError>
    ensures { IfOk result (λ name. name ≡ name_of_module i j) }
{
    name_of(alloc, format!(in alloc; "G{i}x{j}")?.as_str())
}

/// The place of the module that is gone on by, among the four of the next smaller number.
fn next(j: u32) -> u32
    requires place { j < 4 }
    ensures next { result ≡ generated.next j }
    ensures below_4 { result < 4 }
{
    (j + 1) % 4
}

/// The number that the function of a module adds.
fn constant(i: u32, j: u32) -> u32
    requires small { i < 200 }
    requires place { j < 4 }
    ensures { result ≡ generated.constant i j }
{
    4 * i + j
}

/// What the function of a module goes on by, from x.
fn step(i: u32, j: u32, x: i64) -> i64
    requires small { i < 200 }
    requires place { j < 4 }
    ensures { result ≡ generated.step i j x }
{
    let tripled = x.wrapping_mul(3);
    tripled.wrapping_add(constant(i, j) as i64)
}

/// What the function of a module gives at x, wrapping at 64 bits.
fn value(i: u32, j: u32, x: i64) -> i64
    requires small { i < 200 }
    requires place { j < 4 }
    ensures { result ≡ value_of i j x }
{
    let here = step(i, j, x);
    match i.checked_sub(1) {
        Some(below) => value(below, next(j), here),
        None => here,
    }
}

fn put(text: &mut Vec<u8>, words: &str) -> Result<(), MemoryError>
    ensures { OnOk result (Adds text.old text.new words.now) }
{
    Ok(text.extend_from_slice(words.as_bytes())?)
}

fn put_number(text: &mut Vec<u8>, number: u32) -> Result<(), MemoryError>
    ensures { OnOk result (Adds text.old text.new (decimal number)) }
{
    let mut buffer = itoa::Buffer::new();
    put(text, buffer.format(number))
}

/// What the function of a module gives at 0.
fn put_value(text: &mut Vec<u8>, i: u32, j: u32) -> Result<(), MemoryError>
    requires small { i < 200 }
    requires place { j < 4 }
    ensures { OnOk result (Adds text.old text.new (signed_decimal (value_of i j (pos 0)))) }
{
    let mut buffer = itoa::Buffer::new();
    put(text, buffer.format(value(i, j, 0)))
}

/// A name of this letter.
#[tactic(auto, unfolding(crate::specs::Generated::numbered))]
fn put_name(text: &mut Vec<u8>, letter: &str, i: u32, j: u32) -> Result<(), MemoryError>
    ensures { OnOk result (Adds text.old text.new (numbered letter.now i j)) }
{
    put(text, letter)?;
    put_number(text, i)?;
    put(text, "x")?;
    put_number(text, j)
}

pub fn module_text(alloc: Global, i: u32, j: u32) -> Result<Vec<u8>, MemoryError>
    requires small { i < 200 }
    requires place { j < 4 }
    ensures { IfOk result (λ text. text.items ≡ text_of_module i j) }
{
    let mut text = Vec::new(alloc);
    put(&mut text, "module ")?;
    put_name(&mut text, "G", i, j)?;
    put(&mut text, "\n")?;
    put_import(&mut text, i, j)?;
    put_function(&mut text, i, j)?;
    put_proof(&mut text, i, j)?;
    Ok(text)
}

fn put_import(text: &mut Vec<u8>, i: u32, j: u32) -> Result<(), MemoryError>
    requires place { j < 4 }
    ensures { OnOk result (Adds text.old text.new (written (import_lines i j))) }
{
    if let Some(below) = i.checked_sub(1) {
        put(text, "import ")?;
        put_name(text, "G", below, next(j))?;
        put(text, "\n")?;
    }
    Ok(())
}

fn put_function(text: &mut Vec<u8>, i: u32, j: u32) -> Result<(), MemoryError>
    requires small { i < 200 }
    requires place { j < 4 }
    ensures { OnOk result (Adds text.old text.new (written (generated.function_lines i j))) }
{
    put_name(text, "f", i, j)?;
    put(text, " : Int -> Int\n")?;
    put_name(text, "f", i, j)?;
    put(text, " x = ")?;
    put_side(text, i, j)?;
    put(text, "\n")
}

/// The right side of a module's function.
fn put_side(text: &mut Vec<u8>, i: u32, j: u32) -> Result<(), MemoryError>
    requires small { i < 200 }
    requires place { j < 4 }
    ensures { OnOk result (Adds text.old text.new (side i j)) }
{
    match i.checked_sub(1) {
        Some(below) => {
            put_name(text, "f", below, next(j))?;
            put(text, " (")?;
            put_step(text, i, j)?;
            put(text, ")")
        }
        None => put_step(text, i, j),
    }
}

fn put_step(text: &mut Vec<u8>, i: u32, j: u32) -> Result<(), MemoryError>
    requires small { i < 200 }
    requires place { j < 4 }
    ensures { OnOk result (Adds text.old text.new (step_text i j)) }
{
    put(text, "addInt (mulInt x 3) ")?;
    put_number(text, constant(i, j))
}

fn put_proof(text: &mut Vec<u8>, i: u32, j: u32) -> Result<(), MemoryError>
    requires small { i < 200 }
    requires place { j < 4 }
    ensures { OnOk result (Adds text.old text.new (written (generated.proof_lines i j))) }
{
    put_name(text, "p", i, j)?;
    put(text, " : Eq Int (")?;
    put_name(text, "f", i, j)?;
    put(text, " 0) ")?;
    put_value(text, i, j)?;
    put(text, "\n")?;
    put_name(text, "p", i, j)?;
    put(text, " = Refl\n")
}

/// The text of `Main` over the four modules of the greatest number.
pub fn main_text(alloc: Global, i: u32) -> Result<Vec<u8>, MemoryError>
    ensures { IfOk result (λ text. text.items ≡ text_of_main i) }
{
    let mut text = Vec::new(alloc);
    put(&mut text, "module Main\n")?;
    put_imports(&mut text, i)?;
    put(&mut text, "main : IO Unit\nmain = do\n")?;
    put_statements(&mut text, i)?;
    Ok(text)
}

fn put_imports(text: &mut Vec<u8>, i: u32) -> Result<(), MemoryError>
    ensures { OnOk result (Adds text.old text.new
        (written (map (generated.import_line i) (generated.below 4)))) }
{
    for j in 0..4u32 {
        put(text, "import ")?;
        put_name(text, "G", i, j)?;
        put(text, "\n")?;
    }
    Ok(())
}

fn put_statements(text: &mut Vec<u8>, i: u32) -> Result<(), MemoryError>
    ensures { OnOk result (Adds text.old text.new
        (written (map (generated.put_line i) (generated.below 4)))) }
{
    for j in 0..4u32 {
        put(text, "  putLine (showInt (")?;
        put_name(text, "f", i, j)?;
        put(text, " 1))\n")?;
    }
    Ok(())
}
