//! The command that two words name.

ghost use Rattle.std.specs.Prelude.{◌≡◌, IfOk, option_map};
ghost use Rattle.qtt_words.specs.Asked.{Work, module_name, number, work_named};
ghost use Rattle.qtt_words.specs.Requested.{work};

use crate::name::module_name;
use crate::number::number;
use crate::request::{Command, Generation};
use qtt_base::MemoryError;
use std::alloc::Global;

/// COMMAND MODULE.
pub fn command(alloc: Global, first: &str, second: &str) -> Result<Option<Command>, MemoryError>
    ensures { IfOk result (λ c. option_map work c ≡ work_named module_name first.now second.now) }
{
    match first {
        "check" => Ok(module_name(alloc, second)?.map(Command::Check)),
        "core" => Ok(module_name(alloc, second)?.map(Command::Core)),
        "code" => Ok(module_name(alloc, second)?.map(Command::Code)),
        "run" => Ok(module_name(alloc, second)?.map(Command::Run)),
        "gen" => Ok(generation(second)),
        _ => Ok(None),
    }
}

/// `gen` at a number.
fn generation(word: &str) -> Option<Command>
    ensures { option_map work result ≡ option_map Work.gen (number 3 200 word.now) }
{
    let number = number(word, 3, 200)? as u32;
    Some(Command::Generate(Generation { number }))
}
