//! The parts of a detail, each behind a blank.

ghost use Rattle.std.specs.Prelude.{◌++◌, codes, decimal, OnOk};
ghost use Rattle.qtt_term.specs.Entries.{entries};
ghost use Rattle.qtt_term.specs.View.{term as term_of};
ghost use Rattle.qtt_core_print.specs.Names.{unqualified};
ghost use Rattle.qtt_core_print.specs.Printing.{behind_blank, behind_blanks, mult_word, text};
ghost use Rattle.qtt_diag.specs.Kept.{question as question_of};
ghost use Rattle.qtt_diag.specs.Messages.{hexadecimal, name_or_blank, pair, question_text};
ghost use Rattle.qtt_diag.specs.Writing.{Adds};

use qtt_base::{MemoryError, Name};
use qtt_core_print::{last_part, print_core};
use qtt_term::{Globals, Question, Term};
use qtt_usage::mult::Mult;
use std::alloc::Global;

pub fn put(out: &mut Vec<u8>, bytes: &[u8]) -> Result<(), MemoryError>
    ensures { OnOk result (Adds out.old out.new bytes.now) }
{
    Ok(out.extend_from_slice(bytes)?)
}

pub fn put_part(out: &mut Vec<u8>, part: &[u8]) -> Result<(), MemoryError>
    ensures { OnOk result (Adds out.old out.new (behind_blank part.now)) }
{
    put(out, b" ")?;
    put(out, part)
}

pub fn put_number(out: &mut Vec<u8>, number: u64) -> Result<(), MemoryError>
    ensures { OnOk result (Adds out.old out.new (behind_blank (decimal number))) }
{
    let mut buffer = itoa::Buffer::new();
    put_part(out, buffer.format(number).as_bytes())
}

/// A character by its number, as `U+` and four hexadecimal digits or more.
#[tactic(auto, using(crate::proofs::Hexadecimal::four_digits))]
pub fn put_character(alloc: Global, out: &mut Vec<u8>, character: char) -> Result<(), MemoryError>
    ensures { OnOk result (Adds out.old out.new
        (behind_blank (codes "U+" ++ hexadecimal character))) }
{
    let number = u32::from(character);
    put(out, format!(in alloc; " U+{number:04X}")?.as_bytes())
}

pub fn put_whole_name(out: &mut Vec<u8>, name: &Name) -> Result<(), MemoryError>
    ensures { OnOk result (Adds out.old out.new (behind_blank name.now)) }
{
    put_part(out, name.as_str().as_bytes())
}

pub fn put_names(out: &mut Vec<u8>, names: &[Name]) -> Result<(), MemoryError>
    ensures { OnOk result (Adds out.old out.new (behind_blanks names.now)) }
{
    for name in names {
        put_whole_name(out, name)?;
    }
    Ok(())
}

/// A name without its module.
pub fn put_name(out: &mut Vec<u8>, name: &Name) -> Result<(), MemoryError>
    ensures { OnOk result (Adds out.old out.new (behind_blank (unqualified name.now))) }
{
    put_part(out, last_part(name.as_str().as_bytes()))
}

/// A name without its module, or `_`.
pub fn put_name_or_blank(out: &mut Vec<u8>, name: &Option<Name>) -> Result<(), MemoryError>
    ensures { OnOk result (Adds out.old out.new (behind_blank (name_or_blank name.now))) }
{
    match name {
        Some(name) => put_name(out, name),
        None => put_part(out, b"_"),
    }
}

fn put_mult(out: &mut Vec<u8>, mult: Mult) -> Result<(), MemoryError>
    ensures { OnOk result (Adds out.old out.new (behind_blank (mult_word mult))) }
{
    put_part(
        out,
        match mult {
            Mult::Zero => b"0",
            Mult::One => b"1",
            Mult::Many => b"many",
        },
    )
}

/// Two multiplicities, each behind its word.
pub fn put_mults(
    out: &mut Vec<u8>,
    first_word: &str,
    first: Mult,
    second_word: &str,
    second: Mult,
) -> Result<(), MemoryError>
    ensures { OnOk result (Adds out.old out.new (behind_blanks
        (pair first_word.now (mult_word first) second_word.now (mult_word second)))) }
{
    put_part(out, first_word.as_bytes())?;
    put_mult(out, first)?;
    put_part(out, second_word.as_bytes())?;
    put_mult(out, second)
}

/// Two numbers, each behind its word.
pub fn put_numbers(
    out: &mut Vec<u8>,
    first_word: &str,
    first: u64,
    second_word: &str,
    second: u64,
) -> Result<(), MemoryError>
    ensures { OnOk result (Adds out.old out.new (behind_blanks
        (pair first_word.now (decimal first) second_word.now (decimal second)))) }
{
    put_part(out, first_word.as_bytes())?;
    put_number(out, first)?;
    put_part(out, second_word.as_bytes())?;
    put_number(out, second)
}

/// A term that stands behind so many binders.
pub fn put_term(
    alloc: Global,
    out: &mut Vec<u8>,
    names: &Globals,
    depth: u32,
    t: &Term,
) -> Result<(), MemoryError>
    ensures { OnOk result (Adds out.old out.new
        (behind_blank (text (entries names.now) depth (term_of t.now)))) }
{
    put_part(out, &print_core(alloc, names, depth, t)?)
}

/// The first question that took more than the budget.
pub fn put_question(
    alloc: Global,
    out: &mut Vec<u8>,
    names: &Globals,
    question: &Question,
) -> Result<(), MemoryError>
    ensures { OnOk result (Adds out.old out.new
        (behind_blanks (question_text (entries names.now) (question_of question.now)))) }
{
    match question {
        Question::Head(depth, t) => {
            put_part(out, b"head")?;
            put_term(alloc, out, names, *depth, t)
        }
        Question::Compare(depth, t, u) => {
            put_part(out, b"compare")?;
            put_term(alloc, out, names, *depth, t)?;
            put_term(alloc, out, names, *depth, u)
        }
    }
}
