//! The whole line, read by the crate `clap`.

ghost use Rattle.std.specs.Prelude.{◌≡◌, ◌≤◌, false, IfOk, IfSome, option_map};
ghost use Rattle.clap.specs.Words.{app_of, found_of, first_value, rule_of};
ghost use Rattle.qtt_words.specs.Asked.{asked, module_name, number_or};
ghost use Rattle.qtt_words.specs.Clap.{asked_from, needed, qtt_app, with_long};
ghost use Rattle.qtt_words.specs.Requested.{requested};

use crate::command::command;
use crate::number::number;
use crate::request::Request;
use clap::error::ErrorKind;
use clap::{Arg, ArgAction, ArgMatches, Command};
use qtt_base::MemoryError;
use std::alloc::{AllocError, Global};

/// What the words ask for, which are the program's arguments without its own name. None is for
/// words that ask for nothing. A word of 2^29 bytes or more in the place of a module's name is want
/// of memory.
pub fn read_words(alloc: Global, words: &[String]) -> Result<Option<Request>, MemoryError>
    ensures { IfOk result (λ request. option_map requested request ≡ asked words.now) }
{
    match line(alloc)?.try_get_matches_from(words) {
        Ok(matches) => read_matches(alloc, &matches),
        Err(error) => match error.kind() {
            ErrorKind::OutOfMemory => Err(MemoryError),
            _ => Ok(None),
        },
    }
}

/// The command line of the program. Values are texts: a parser of numbers would take a sign.
fn line<'a>(alloc: Global) -> Result<Command<'a>, AllocError>
    ensures { IfOk result (λ line. app_of line ≡ qtt_app) }
{
    Command::new(alloc, "qtt")
        .no_binary_name(true)
        .disable_help_flag(true)
        .arg(positional(alloc, "COMMAND"))?
        .arg(positional(alloc, "MODULE"))?
        .arg(option(alloc, "steps"))?
        .arg(option(alloc, "budget"))?
        .arg(option(alloc, "jobs"))
}

/// An argument that must be there.
fn positional<'a>(alloc: Global, id: &'a str) -> Arg<'a>
    ensures rule { rule_of result ≡ needed id.entry.now }
    ensures local { result.global ≡ false }
{
    Arg::new(alloc, id).required(true).action(ArgAction::Set)
}

/// An option with a value, by its name.
fn option<'a>(alloc: Global, name: &'a str) -> Arg<'a>
    ensures rule { rule_of result ≡ with_long name.entry.now }
    ensures local { result.global ≡ false }
{
    Arg::new(alloc, name).long(name).action(ArgAction::Set)
}

/// What the matches ask for.
fn read_matches(alloc: Global, matches: &ArgMatches) -> Result<Option<Request>, MemoryError>
    ensures { IfOk result (λ request. option_map requested request
        ≡ asked_from module_name (first_value (found_of matches.now))) }
{
    let Some(steps) = value(matches, "steps", 10_000_000, 4_000_000_000) else {
        return Ok(None);
    };
    let Some(budget) = value(matches, "budget", 100_000, 10_000_000) else {
        return Ok(None);
    };
    let Some(jobs) = value(matches, "jobs", 1, 64) else {
        return Ok(None);
    };
    let (Some(first), Some(second)) = (matches.get_str("COMMAND"), matches.get_str("MODULE")) else {
        return Ok(None);
    };
    match command(alloc, first, second)? {
        Some(command) => Ok(Some(Request {
            command,
            steps,
            budget,
            jobs: jobs as u32,
        })),
        None => Ok(None),
    }
}

/// The number of an option, from 1 to `most`.
fn value(matches: &ArgMatches, name: &str, default: u64, most: u64) -> Option<u64>
    requires positive { 1 ≤ default }
    requires bounded { default ≤ most }
    ensures value { result ≡ number_or default most (first_value (found_of matches.now) name.now) }
    ensures positive { IfSome result (λ n. 1 ≤ n) }
    ensures bounded { IfSome result (λ n. n ≤ most) }
{
    match matches.get_str(name) {
        Some(text) => number(text, 10, most),
        None => Some(default),
    }
}
