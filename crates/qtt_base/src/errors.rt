//! What a refused text keeps, and want of memory.

use crate::place::Span;
use std::alloc::{AllocError, AllocFailed};
use thiserror::Error;

/// The first fault of a module's text.
///
/// `word` is the found word, the name, the quantity's words or the character, by the fault's kind,
/// and is empty where the kind keeps none. `count` is the count of a quantity above its limit,
/// and 0 for every other kind.
#[derive(Debug, Drop)]
pub struct Fault {
    pub kind: u8,
    pub span: Span,
    pub word: Vec<u8>,
    pub count: u64,
}

/// Want of memory, and nothing else.
#[derive(Clone, Copy, Debug, PartialEq, Eq, Error)]
#[error("out of memory")]
pub struct MemoryError;

impl From<AllocError> for MemoryError {
    fn from(_error: AllocError) -> MemoryError {
        MemoryError
    }
}

impl<T: Drop> From<AllocFailed<T>> for MemoryError {
    fn from(_error: AllocFailed<T>) -> MemoryError {
        MemoryError
    }
}
