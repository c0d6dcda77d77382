//! Calls over the outside in memory.

use qtt_cli::qtt_main;
use qtt_edge::{
    ByteSink, ByteSource, FailingCalls, FailingPut, FailingPuts, MapVault, OpenGate, TapeRack,
};
use std::alloc::{AllocError, Global};
use std::collections::BTreeMap;
use std::test::Fail;
use std::thread::Threads;

/// A module's name and its text.
#[derive(Clone, Copy)]
pub struct Stored<'a> {
    pub name: &'a str,
    pub text: &'a str,
}

/// The calls of each device that fail.
#[derive(Drop)]
pub struct Failing {
    pub reads: Vec<u64>,
    pub pulls: Vec<u64>,
    pub puts: Vec<FailingPut>,
    pub tellings: Vec<FailingPut>,
    pub tapes: Vec<u64>,
}

impl Failing {
    pub fn none(alloc: Global) -> Failing {
        Failing {
            reads: Vec::new(alloc),
            pulls: Vec::new(alloc),
            puts: Vec::new(alloc),
            tellings: Vec::new(alloc),
            tapes: Vec::new(alloc),
        }
    }
}

/// What a call leaves.
#[derive(Drop)]
pub struct Left {
    pub status: u8,
    pub out: ByteSink<FailingPuts>,
    pub err: ByteSink<FailingPuts>,
    pub tapes: TapeRack<FailingCalls>,
}

impl Left {
    /// Whether the call answered this, put this and told this.
    pub fn is(&self, status: u8, out: &[u8], err: &[u8]) -> bool {
        self.status == status
            && self.out.bytes.as_slice() == out
            && self.err.bytes.as_slice() == err
    }

    /// Whether one tape is there, of this name, with so many lines.
    pub fn has_tape(&self, name: &str, lines: usize, is_open: bool) -> bool {
        match self.tapes.tapes.as_slice() {
            [tape] => {
                tape.name.as_str() == name && tape.lines.len() == lines && tape.is_open == is_open
            }
            _ => false,
        }
    }
}

fn texts_of(alloc: Global, modules: &[Stored]) -> Result<BTreeMap<String, Vec<u8>>, AllocError> {
    let mut texts = BTreeMap::new(alloc);
    for stored in modules {
        let name = String::from_str(alloc, stored.name)?;
        texts.insert(name, stored.text.as_bytes().to_vec(alloc)?)?;
    }
    Ok(texts)
}

fn words_of(alloc: Global, words: &[&str]) -> Result<Vec<String>, AllocError> {
    let mut given = Vec::new(alloc);
    for word in words {
        given.push(String::from_str(alloc, word)?)?;
    }
    Ok(given)
}

/// A call with these words over these modules and this input, where some calls of devices fail.
pub fn call_failing<R: Threads + Sync>(
    rt: &R,
    alloc: Global,
    modules: &[Stored],
    words: &[&str],
    input: &[u8],
    failing: Failing,
) -> Result<Left, Fail> {
    let words = words_of(alloc, words)?;
    let mut vault = MapVault::failing(texts_of(alloc, modules)?, failing.reads);
    let mut source = ByteSource::failing(input.to_vec(alloc)?, failing.pulls);
    let mut out = ByteSink::failing(alloc, failing.puts);
    let mut err = ByteSink::failing(alloc, failing.tellings);
    let mut tapes = TapeRack::failing(alloc, failing.tapes);
    let status = qtt_main(
        rt,
        alloc,
        &words,
        &mut vault,
        &mut source,
        &mut out,
        &mut err,
        &mut tapes,
        &OpenGate,
    );
    Ok(Left {
        status,
        out,
        err,
        tapes,
    })
}

/// A call where no device fails.
pub fn call<R: Threads + Sync>(
    rt: &R,
    alloc: Global,
    modules: &[Stored],
    words: &[&str],
    input: &[u8],
) -> Result<Left, Fail> {
    call_failing(rt, alloc, modules, words, input, Failing::none(alloc))
}

/// A call over the module Main of this text, where no device fails and the input is empty.
pub fn over_main<R: Threads + Sync>(
    rt: &R,
    alloc: Global,
    text: &str,
    words: &[&str],
) -> Result<Left, Fail> {
    call(rt, alloc, &[Stored { name: "Main", text }], words, b"")
}

/// A call over the module Main of this text, and what it is to leave.
#[derive(Clone, Copy)]
pub struct Row<'a> {
    pub text: &'a str,
    pub words: &'a [&'a str],
    pub input: &'a [u8],
    pub status: u8,
    pub out: &'a str,
    pub err: &'a str,
}

/// Whether the call leaves that.
pub fn holds<R: Threads + Sync>(rt: &R, alloc: Global, row: &Row) -> Result<bool, Fail> {
    let modules = [Stored {
        name: "Main",
        text: row.text,
    }];
    let left = call(rt, alloc, &modules, row.words, row.input)?;
    Ok(left.is(row.status, row.out.as_bytes(), row.err.as_bytes()))
}

/// Whether each call leaves that.
pub fn all_hold<R: Threads + Sync>(rt: &R, alloc: Global, rows: &[Row]) -> Result<bool, Fail> {
    for row in rows {
        if !holds(rt, alloc, row)? {
            return Ok(false);
        }
    }
    Ok(true)
}
