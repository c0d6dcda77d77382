//! What a refusal keeps of a fault of reading.

ghost use Rattle.std.specs.Prelude.{◌≡◌, IfOk, option_map};
ghost use Rattle.qtt_diag.specs.Fault as kept;
ghost use Rattle.qtt_diag.specs.Fault.{character_spelled, name_spelled, quantity_named};
ghost use Rattle.qtt_diag.specs.Kept.{detail};

use qtt_base::{Fault, MemoryError, Name, NameError, Quantity};
use qtt_rules::Detail;
use std::alloc::Global;
use std::str;

const QUANTITIES: [Quantity; 13] = [
    Quantity::TextBytes,
    Quantity::Modules,
    Quantity::Items,
    Quantity::Constructors,
    Quantity::Parts,
    Quantity::Clauses,
    Quantity::Leaves,
    Quantity::Statements,
    Quantity::LiteralBytes,
    Quantity::TypeNumber,
    Quantity::Blocks,
    Quantity::Instructions,
    Quantity::FilledNodes,
];

/// What is kept of a fault of characters, tokens, blocks, the grammar or names, or of a limit of
/// a text; none of another number, nor where the word is none that the kind has.
pub fn fault_detail(alloc: Global, fault: Fault) -> Result<Option<Detail>, MemoryError>
    ensures { IfOk result (λ found. option_map detail found ≡
        kept.fault_detail fault.kind fault.word.items fault.count) }
{
    let Fault {
        kind,
        word,
        count,
        ..
    } = fault;
    match kind {
        2 => Ok(character_spelled(&word).map(|character| Detail::BadCharacter { character })),
        8 => Ok(Some(Detail::Unexpected { word })),
        10 => Ok(name_spelled(alloc, &word)?.map(|name| Detail::Unbound { name })),
        11 => Ok(name_spelled(alloc, &word)?.map(|name| Detail::Ambiguous { name })),
        12 => Ok(name_spelled(alloc, &word)?.map(|name| Detail::Duplicate { name })),
        31 => Ok(quantity_named(&word).map(|quantity| Detail::Limit { quantity, count })),
        _ => Ok(bare_detail(kind)),
    }
}

/// What is kept of a fault without a word.
fn bare_detail(kind: u8) -> Option<Detail>
    ensures { option_map detail result ≡ kept.bare_detail kind }
{
    match kind {
        1 => Some(Detail::NotUtf8),
        3 => Some(Detail::OpenText),
        4 => Some(Detail::OpenComment),
        5 => Some(Detail::NumberTooWide),
        6 => Some(Detail::NameTooLong),
        7 => Some(Detail::BadIndent),
        9 => Some(Detail::TooDeep),
        _ => None,
    }
}

/// The first character that bytes spell.
fn character_spelled(word: &[u8]) -> Option<char>
    ensures { result ≡ character_spelled word.now }
{
    let Ok(text) = str::from_utf8(word) else {
        return None;
    };
    text.chars().next()
}

/// The name that bytes spell.
fn name_spelled(alloc: Global, word: &[u8]) -> Result<Option<Name>, MemoryError>
    ensures { IfOk result (λ name. name ≡ name_spelled word.now) }
{
    let Ok(text) = str::from_utf8(word) else {
        return Ok(None);
    };
    match Name::new(alloc, text) {
        Ok(name) => Ok(Some(name)),
        Err(NameError::TooLong) => Ok(None),
        Err(NameError::Memory) => Err(MemoryError),
    }
}

/// The quantity of these words.
fn quantity_named(word: &[u8]) -> Option<Quantity>
    ensures { result ≡ quantity_named word.now }
{
    QUANTITIES
        .iter()
        .copied()
        .find(|quantity| quantity.words().as_bytes() == word)
}
