//! Names: what each used name of a module's text stands for.
//!
//! `resolve` answers exactly the text with the targets of its names, or the first fault in text
//! order (kinds 10, 11 and 12 with their places). `Scope::new` is exactly the scope of a text
//! and its imports, `Exports::prim` exactly the names, numbers and signatures of the module
//! Prim, `Exports::copy` an equal value. Worked: `examples::names_as_worked`.
#![tactic(auto)]

mod errors;
pub mod examples;
mod exports;
mod expr;
mod module;
mod pattern;
mod prim_sigs;
mod scope;
mod target;

pub use errors::NamesError;
pub use exports::{Exports, Sig};
pub use module::resolve;
pub use scope::Scope;
