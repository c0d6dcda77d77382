//! Names, places, limits and the errors that every part of the compiler shares.
//!
//! `Name::new` takes exactly the texts whose parts have at most 255 bytes; `Limits::standard`
//! is the table of limits. Worked: `examples::names_as_worked`.
#![tactic(auto)]

pub mod errors;
pub mod examples;
pub mod limits;
pub mod name;
pub mod place;

pub use errors::{Fault, MemoryError};
pub use limits::{Limits, Quantity};
pub use name::{Name, NameError};
pub use place::{GlobalId, ModuleId, Span};
