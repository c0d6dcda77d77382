//! What stands between the terms of a text: words, binders, marks and literals.

ghost use Rattle.std.specs.Prelude.{◌≡◌, decimal, OnOk};
ghost use Rattle.qtt_term.specs.View.{io};
ghost use Rattle.qtt_term.specs.Term.{PrimTy};
ghost use Rattle.qtt_core_print.specs.Printing.{at_mark, behind_blanks, binder_at, escaped, lead as lead_of, literal_text, mark, match_head, mult_word, next_binders, prim_ty_name, quoted, variable};
ghost use Rattle.qtt_core_print.specs.Writing.{Adds, where_needed};

use qtt_base::MemoryError;
use qtt_prims::Lit;
use qtt_term::IoKind;
use qtt_usage::mult::Mult;

pub fn put(out: &mut Vec<u8>, bytes: &[u8]) -> Result<(), MemoryError>
    ensures { OnOk result (Adds out.old out.new bytes.now) }
{
    Ok(out.extend_from_slice(bytes)?)
}

/// The bytes where they are needed, else nothing.
pub fn put_where(out: &mut Vec<u8>, is_needed: bool, bytes: &[u8]) -> Result<(), MemoryError>
    ensures { OnOk result (Adds out.old out.new (where_needed is_needed bytes.now)) }
{
    if is_needed {
        put(out, bytes)?;
    }
    Ok(())
}

pub fn put_number(out: &mut Vec<u8>, number: u64) -> Result<(), MemoryError>
    ensures { OnOk result (Adds out.old out.new (decimal number)) }
{
    let mut buffer = itoa::Buffer::new();
    put(out, buffer.format(number).as_bytes())
}

/// The binder at this level.
pub fn put_binder(out: &mut Vec<u8>, level: u64) -> Result<(), MemoryError>
    ensures { OnOk result (Adds out.old out.new (binder_at level)) }
{
    put(out, b"x")?;
    put_number(out, level)
}

/// The next so many binders behind so many, each behind a blank.
pub fn put_binders(out: &mut Vec<u8>, depth: u64, count: u64) -> Result<(), MemoryError>
    ensures { OnOk result (Adds out.old out.new (behind_blanks (next_binders depth count))) }
{
    let Some(end) = depth.checked_add(count) else {
        return Err(MemoryError);
    };
    for level in depth..end {
        put(out, b" ")?;
        put_binder(out, level)?;
    }
    Ok(())
}

/// What stands before the branch at this place.
pub fn lead(place: usize) -> &'static [u8]
    ensures { result.now ≡ lead_of place }
{
    if place == 0 { b" " } else { b"; " }
}

/// A variable behind so many binders.
pub fn put_variable(out: &mut Vec<u8>, depth: u64, index: u32) -> Result<(), MemoryError>
    ensures { OnOk result (Adds out.old out.new (variable depth index)) }
{
    let index = index as u64;
    if index < depth {
        put_binder(out, depth - index - 1)
    } else {
        put(out, b"x_")
    }
}

/// What stands in a match before its scrutinee.
#[tactic(auto, unfolding(crate::specs::Printing::match_head))]
pub fn put_head(out: &mut Vec<u8>, word: &[u8], mult: Mult) -> Result<(), MemoryError>
    ensures { OnOk result (Adds out.old out.new (match_head word.now mult)) }
{
    put(out, b"(")?;
    put(out, word)?;
    put(out, b" ")?;
    put_mult(out, mult)?;
    put(out, b" ")
}

fn put_mult(out: &mut Vec<u8>, mult: Mult) -> Result<(), MemoryError>
    ensures { OnOk result (Adds out.old out.new (mult_word mult)) }
{
    put(
        out,
        match mult {
            Mult::Zero => b"0",
            Mult::One => b"1",
            Mult::Many => b"many",
        },
    )
}

/// The mark of a binder, and a blank behind it.
pub fn put_mark(out: &mut Vec<u8>, mult: Mult) -> Result<(), MemoryError>
    ensures { OnOk result (Adds out.old out.new (mark mult)) }
{
    match mult {
        Mult::Zero => put(out, b"0 "),
        Mult::One => put(out, b"1 "),
        Mult::Many => Ok(()),
    }
}

/// The mark of an argument, and a blank behind it.
pub fn put_at_mark(out: &mut Vec<u8>, mult: Mult) -> Result<(), MemoryError>
    ensures { OnOk result (Adds out.old out.new (at_mark mult)) }
{
    match mult {
        Mult::Zero => put(out, b"@0 "),
        Mult::One => put(out, b"@1 "),
        Mult::Many => Ok(()),
    }
}

pub fn io_name(kind: IoKind) -> &'static [u8]
    ensures { result.now ≡ prim_ty_name (PrimTy.io_of (io kind)) }
{
    match kind {
        IoKind::Io => b"IO",
        IoKind::Io1 => b"IO1",
    }
}

pub fn put_literal(out: &mut Vec<u8>, literal: &Lit) -> Result<(), MemoryError>
    ensures { OnOk result (Adds out.old out.new (literal_text literal.now)) }
{
    match literal {
        Lit::Int(number) => {
            let mut buffer = itoa::Buffer::new();
            put(out, buffer.format(*number).as_bytes())
        }
        Lit::Text(text) => put_text(out, text.as_str().as_bytes()),
    }
}

/// A text in quotes.
fn put_text(out: &mut Vec<u8>, text: &[u8]) -> Result<(), MemoryError>
    ensures { OnOk result (Adds out.old out.new (quoted text.now)) }
{
    put(out, b"\"")?;
    for byte in text {
        put_escaped(out, *byte)?;
    }
    put(out, b"\"")
}

fn put_escaped(out: &mut Vec<u8>, byte: u8) -> Result<(), MemoryError>
    ensures { OnOk result (Adds out.old out.new (escaped byte)) }
{
    match byte {
        b'\n' => put(out, b"\\n"),
        b'\t' => put(out, b"\\t"),
        b'\\' => put(out, b"\\\\"),
        b'"' => put(out, b"\\\""),
        _ => Ok(out.push(byte)?),
    }
}
