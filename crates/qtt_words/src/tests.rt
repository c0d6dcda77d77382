//! Words that are read, and words that are not.

use crate::{Command, Request, read_words};
use std::alloc::{AllocError, Global};
use std::test::Fail;

fn strings(alloc: Global, texts: &[&str]) -> Result<Vec<String>, AllocError> {
    let mut words = Vec::new(alloc);
    for text in texts {
        words.push(String::from_str(alloc, text)?)?;
    }
    Ok(words)
}

fn read(alloc: Global, texts: &[&str]) -> Result<Option<Request>, Fail> {
    let words = strings(alloc, texts)?;
    Ok(read_words(alloc, words.as_slice())?)
}

#[test]
fn a_command_is_read(rt: HostRuntime) -> Result<(), Fail> {
    let words = ["--jobs", "2", "check", "--steps=0007", "Data.lists"];
    let Some(request) = read(rt.alloc(), words.as_slice())? else {
        return Err(Fail::new("no request"));
    };
    assert!(rt; matches!(&request.command, Command::Check(name) if name.as_str() == "Data.lists"));
    assert!(rt; request.steps == 7 && request.budget == 100_000 && request.jobs == 2);
    Ok(())
}

#[test]
fn a_number_is_read(rt: HostRuntime) -> Result<(), Fail> {
    let words = ["--", "gen", "040"];
    let Some(request) = read(rt.alloc(), words.as_slice())? else {
        return Err(Fail::new("no request"));
    };
    assert!(rt;
        matches!(&request.command, Command::Generate(generation) if generation.number == 40)
    );
    Ok(())
}

#[test]
fn other_words_ask_for_nothing(rt: HostRuntime) -> Result<(), Fail> {
    let refused = ["run", "Main", "--jobs", "65"];
    assert!(rt; read(rt.alloc(), refused.as_slice())?.is_none());
    let unknown = ["run", "Main", "--help"];
    assert!(rt; read(rt.alloc(), unknown.as_slice())?.is_none());
    Ok(())
}
