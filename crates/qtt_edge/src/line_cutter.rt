//! Lines of a source's bytes.

ghost use Rattle.std.specs.Prelude.{◌≡◌, ◌+◌, ◌≤◌, [], length, take, drop, vec_len, is_some, IfOk, OnOk, OnErr, IsErrOf, MatchOption};
ghost use Rattle.qtt_prims.specs.Lines.{line_of};
ghost use Rattle.qtt_edge.specs.Counts.{Counts};
ghost use Rattle.qtt_edge.specs.Source.{IsAtEnd};
ghost use Rattle.qtt_edge.specs.LineCutter.{all_told, Cuts, CutsFront, CutsLast, EndsAt, GivesLine};

use crate::source::Source;
use qtt_base::MemoryError;
use qtt_prims::Text;
use std::alloc::Global;
use std::marker::Model;
use std::str;
use thiserror::Error;

/// The greatest number of bytes of a line.
pub const MAX_LINE: usize = 65_536;

/// How many bytes one turn asks a source for.
const CHUNK: usize = 4_096;

/// Cuts the bytes of a source into lines, and holds those that it pulled too early. A contract
/// sees the bytes that it holds.
#[derive(Drop)]
pub struct LineCutter {
    held: Vec<u8>,
    alloc: Global,
}

impl Model for LineCutter {
    ghost use Rattle.std.specs.Prelude.{ℕ, List};

    ghost Value = { List ℕ };

    ghost view = { λ c. c.held.items };
}

/// What stands next in the input.
#[derive(Debug, Drop)]
pub enum Next {
    Line(Text),
    /// The end of the input, where no byte is left.
    End,
    /// More than 65,536 bytes stand before the next byte 10 or the end.
    TooLong,
    NotUtf8,
}

#[derive(Clone, Copy, Debug, PartialEq, Eq, Error)]
pub enum LineError {
    #[error("the source failed")]
    Fault,
    #[error("out of memory")]
    Memory,
}

impl LineCutter {
    pub fn new(alloc: Global) -> Result<LineCutter, MemoryError>
        ensures { IfOk result (λ cutter. cutter ≡ []) }
    {
        Ok(LineCutter {
            held: Vec::new(alloc),
            alloc,
        })
    }

    /// Takes one line of the bytes that are held and then of those that the source has left.
    ///
    /// Only a line is taken: with every other answer these bytes stay, but for an error, after
    /// which nothing is known of them. The source is pulled at most 65,537 times.
    pub fn next_line<S: Source>(&mut self, source: &mut S) -> Result<Next, LineError>
        ensures cuts { Cuts (all_told self.old (S.content source.old))
            (all_told self.new (S.content source.new)) result }
        ensures line { GivesLine result }
        ensures end { result ≡ Ok Next.End → self.old ≡ [] }
        ensures pulled { S.pulls source.new ≤ S.pulls source.old + 65537 }
        ensures ended { Counts (S.ends source.old) (S.ends source.new) (result ≡ Ok Next.End) }
        ensures failed { Counts (S.faults source.old) (S.faults source.new)
            (IsErrOf result LineError.Fault) }
    {
        next_line(self.alloc, &mut self.held, source)
    }
}

fn next_line<S: Source>(
    alloc: Global,
    held: &mut Vec<u8>,
    source: &mut S,
) -> Result<Next, LineError>
    ensures cuts { let before = all_told held.old.items (S.content source.old) in
        Cuts before (all_told held.new.items (S.content source.new)) result }
    ensures line { GivesLine result }
    ensures end { result ≡ Ok Next.End → held.old.items ≡ [] }
    ensures pulled { S.pulls source.new ≤ S.pulls source.old + 65537 }
    ensures ended { Counts (S.ends source.old) (S.ends source.new) (result ≡ Ok Next.End) }
    ensures failed { Counts (S.faults source.old) (S.faults source.new)
        (IsErrOf result LineError.Fault) }
{
    let mut seen = 0;
    'turns: loop {
        if let Some(len) = line_end(held.as_slice(), seen) {
            return cut(alloc, held, len, len + 1);
        }
        seen = held.len();
        if seen > MAX_LINE {
            return Ok(Next::TooLong);
        }
        if fill(held, source)? == 0 {
            return last(alloc, held);
        }
    }
}

/// The place of the first byte 10, where none stands before `from`.
fn line_end(held: &[u8], from: usize) -> Option<usize>
    requires within { from ≤ length held.now }
    requires seen { line_of (take from held.now) ≡ take from held.now }
    ensures { MatchOption result (line_of held.now ≡ held.now) (λ len. EndsAt len held.now) }
{
    for i in from..held.len() {
        if held[i] == b'\n' {
            return Some(i);
        }
    }
    None
}

/// Takes the first `len` bytes as a line, and forgets those before `behind`.
fn cut(alloc: Global, held: &mut Vec<u8>, len: usize, behind: usize) -> Result<Next, LineError>
    requires line { len ≤ behind }
    requires within { behind ≤ vec_len held.old }
    requires no_end { let front = take len held.old.items in line_of front ≡ front }
    ensures cuts { let bytes = held.old.items in
        CutsFront (take len bytes) (drop behind bytes) bytes held.new.items result }
    ensures line { GivesLine result }
{
    if len > MAX_LINE {
        return Ok(Next::TooLong);
    }
    let Ok(line) = str::from_utf8(&held[..len]) else {
        return Ok(Next::NotUtf8);
    };
    let Ok(text) = Text::from_str(alloc, line) else {
        return Err(LineError::Memory);
    };
    held.drain(..behind);
    Ok(Next::Line(text))
}

/// The line that ends with the input.
fn last(alloc: Global, held: &mut Vec<u8>) -> Result<Next, LineError>
    requires no_end { line_of held.old.items ≡ held.old.items }
    ensures cuts { CutsLast held.old.items held.new.items result }
    ensures line { GivesLine result }
{
    let len = held.len();
    if len == 0 {
        return Ok(Next::End);
    }
    cut(alloc, held, len, len)
}

/// Pulls bytes behind those that are held, and says how many: 0 at the end of the source.
fn fill<S: Source>(held: &mut Vec<u8>, source: &mut S) -> Result<usize, LineError>
    ensures all { let before = all_told held.old.items (S.content source.old) in
        OnOk result (all_told held.new.items (S.content source.new) ≡ before) }
    ensures front { OnOk result (take (length held.old.items) held.new.items ≡ held.old.items) }
    ensures count { IfOk result (λ count. length held.new.items ≡ length held.old.items + count) }
    ensures end { result ≡ Ok 0 → IsAtEnd (S.content source.new) }
    ensures told { OnErr result (is_some (S.content source.new) ≡ is_some (S.content source.old)) }
    ensures pulled { S.pulls source.new ≤ S.pulls source.old + 1 }
    ensures ended { Counts (S.ends source.old) (S.ends source.new) (result ≡ Ok 0) }
    ensures failed { Counts (S.faults source.old) (S.faults source.new)
        (IsErrOf result LineError.Fault) }
{
    let mut chunk = [0u8; CHUNK];
    let Ok(count) = source.pull(&mut chunk) else {
        return Err(LineError::Fault);
    };
    if held.extend_from_slice(&chunk[..count]).is_err() {
        return Err(LineError::Memory);
    }
    Ok(count)
}
