//! The words of a text, and what stands between them.

ghost use Rattle.std.specs.Prelude.{◌≡◌, ◌++◌, ◌∷◌, [], nat_eq, if◌then◌else◌, OnOk};
ghost use Rattle.qtt_syntax.specs.Words.{escaped};
ghost use Rattle.qtt_syntax.specs.Words.Word.{numeral, bare_type, type_at, quoted};
ghost use Rattle.qtt_syntax.specs.Words.Printed.{word, line};
ghost use Rattle.qtt_syntax.specs.Printing.{broken, parted, marked};
ghost use Rattle.qtt_syntax.specs.Writing.{Adds};

use qtt_base::{MemoryError, Name};
use qtt_usage::mult::Mult;

pub fn put(out: &mut Vec<u8>, bytes: &[u8]) -> Result<(), MemoryError>
    ensures { OnOk result (out.new.items ≡ out.old.items ++ bytes.now) }
{
    Ok(out.extend_from_slice(bytes)?)
}

pub fn put_name(out: &mut Vec<u8>, name: &Name) -> Result<(), MemoryError>
    ensures { OnOk result (out.new.items ≡ out.old.items ++ name.now) }
{
    put(out, name.as_str().as_bytes())
}

/// A new line that begins with so many blanks.
pub fn new_line(out: &mut Vec<u8>, blanks: usize) -> Result<(), MemoryError>
    ensures { OnOk result (Adds out.old out.new (line blanks ∷ [])) }
{
    out.push(b'\n')?;
    for _ in 0..blanks {
        out.push(b' ')?;
    }
    Ok(())
}

/// Breaks the line before a symbol that must end an open `do`.
pub fn put_broken(out: &mut Vec<u8>, blanks: usize, breaks: bool) -> Result<(), MemoryError>
    ensures { OnOk result (Adds out.old out.new (broken blanks breaks)) }
{
    if breaks {
        new_line(out, blanks)?;
        put(out, b" ")?;
    }
    Ok(())
}

/// The same where one blank stands otherwise.
pub fn put_parted(out: &mut Vec<u8>, blanks: usize, breaks: bool) -> Result<(), MemoryError>
    ensures { OnOk result (Adds out.old out.new (parted blanks breaks)) }
{
    if breaks {
        new_line(out, blanks)?;
    }
    put(out, b" ")
}

/// A mark of multiplicity, and a blank behind it.
pub fn put_mark(out: &mut Vec<u8>, mult: Mult) -> Result<(), MemoryError>
    ensures { OnOk result (Adds out.old out.new (marked mult)) }
{
    match mult {
        Mult::Zero => put(out, b"0 "),
        Mult::One => put(out, b"1 "),
        Mult::Many => Ok(()),
    }
}

pub fn put_number(out: &mut Vec<u8>, value: i64) -> Result<(), MemoryError>
    ensures { OnOk result (Adds out.old out.new (word (numeral value) ∷ [])) }
{
    let mut buffer = itoa::Buffer::new();
    put(out, buffer.format(value).as_bytes())
}

/// `Type`, with its level where that isn't 0.
pub fn put_type(out: &mut Vec<u8>, level: u64) -> Result<(), MemoryError>
    ensures { OnOk result (Adds out.old out.new
        (word (if nat_eq level 0 then bare_type else type_at level) ∷ [])) }
{
    put(out, b"Type")?;
    if level != 0 {
        let mut buffer = itoa::Buffer::new();
        put(out, b" ")?;
        put(out, buffer.format(level).as_bytes())?;
    }
    Ok(())
}

/// A text in quotes.
pub fn put_text(out: &mut Vec<u8>, value: &[u8]) -> Result<(), MemoryError>
    ensures { OnOk result (Adds out.old out.new (word (quoted value.now) ∷ [])) }
{
    put(out, b"\"")?;
    for byte in value {
        put_escaped(out, *byte)?;
    }
    put(out, b"\"")
}

fn put_escaped(out: &mut Vec<u8>, byte: u8) -> Result<(), MemoryError>
    ensures { OnOk result (out.new.items ≡ out.old.items ++ escaped byte) }
{
    match byte {
        b'\n' => put(out, b"\\n"),
        b'\t' => put(out, b"\\t"),
        b'\\' => put(out, b"\\\\"),
        b'"' => put(out, b"\\\""),
        _ => Ok(out.push(byte)?),
    }
}
