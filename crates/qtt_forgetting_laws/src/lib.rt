//! What is read, resolved and filled is forgotten back.
//!
//! Each text that is read is as texts are written, also with the targets of its names: each
//! application has arguments, those in braces stand in front, and nothing was inserted
//! (`read_texts_are_written`). Each signature that a filled text, a judged module or Prim gives has
//! the binders that it counts (`signatures_have_their_binders`). So forgetting what was filled into
//! a text that was read, over what judged modules give, gives the text back that was filled
//! (`read_texts_are_forgotten`). Worked: `examples`.
#![tactic(auto)]

pub mod examples;
mod laws;

pub use laws::{read_texts_are_forgotten, read_texts_are_written, signatures_have_their_binders};
