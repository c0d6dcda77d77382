//! Literals, the primitives on them, and the kinds of actions.
//!
//! `apply` is exactly the table of primitives: numbers of 64 bits that wrap, division
//! truncating toward zero, texts as bytes. Worked: `examples::primitives_as_worked`.
#![tactic(auto)]

pub mod answer;
pub mod examples;
pub mod lit;
pub mod prim;

pub use answer::{PrimAnswer, PrimError, apply};
pub use lit::{Lit, Text};
pub use prim::{ActKind, Primitive};
