//! Generated modules are read.
//!
//! Each text that `qtt_gen` generates is lexed, laid out and parsed as the tree that it was
//! printed from, but for places, with the module's name in its header, so that none is refused
//! while it is read (`generated_texts_are_read`). This holds for each number whose constants are
//! numbers of a text, which have 63 bits and a sign.
#![tactic(auto)]

mod laws;

pub use laws::generated_texts_are_read;
