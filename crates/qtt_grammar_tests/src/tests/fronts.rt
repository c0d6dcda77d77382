// Each proper front of a program is read, or refused at a place in it or directly behind it.

use super::rows::PROGRAM;
use qtt_base::Span;
use qtt_grammar::{GrammarError, parse};
use qtt_layout::{LayoutError, blocks};
use qtt_lexer::{LexError, lex};
use std::alloc::Global;
use std::test::Fail;

// Where the first fault stands, if there is one.
fn fault_place(alloc: Global, text: &[u8]) -> Result<Option<Span>, Fail> {
    if text.len() > 2_000_000 {
        return Err(Fail::from("the text is too long for a test"));
    }
    let tokens = match lex(alloc, text) {
        Ok(tokens) => tokens,
        Err(LexError::Fault(fault)) => return Ok(Some(fault.span)),
        Err(LexError::Memory) => return Err(Fail::from("no memory")),
    };
    let laid = match blocks(alloc, tokens.as_slice()) {
        Ok(laid) => laid,
        Err(LayoutError::Fault(fault)) => return Ok(Some(fault.span)),
        Err(LayoutError::Memory) => return Err(Fail::from("no memory")),
    };
    match parse(alloc, laid.as_slice()) {
        Ok(_) => Ok(None),
        Err(GrammarError::Fault(fault)) => Ok(Some(fault.span)),
        Err(GrammarError::Memory) => Err(Fail::from("no memory")),
    }
}

// Whether a character of the text stands at the place, or the text ends there.
fn is_in(text: &[u8], place: Span) -> bool {
    let mut line: u32 = 1;
    let mut col: u32 = 1;
    for byte in text {
        if line == place.line && col == place.col {
            return true;
        }
        if *byte == b'\n' {
            line = line.saturating_add(1);
            col = 1;
        } else {
            col = col.saturating_add(1);
        }
    }
    line == place.line && col == place.col
}

#[test]
fn fronts_are_read_or_refused_in_place(rt: HostRuntime) -> Result<(), Fail> {
    let program = PROGRAM.as_bytes();
    for end in 0..program.len() {
        let front = &program[..end];
        if let Some(place) = fault_place(rt.alloc(), front)? {
            assert!(rt; is_in(front, place), "at {end}");
        }
    }
    Ok(())
}
