//! Trees of module texts.
//!
//! `print` writes exactly the canonical text of a tree. Worked: `examples::printed_as_worked`.
//!
//! A theory: its lemmas on what trees stand for may be cited.
#![tactic(auto)]

mod copying;
pub mod examples;
mod expr;
mod module;
mod pattern;
mod printer;

pub use expr::{Argument, Binder, Expr, Local, Mark, Named, Statement, Target};
pub use module::{Clause, ConDecl, FamilyDecl, Import, Item, ModuleText, Param, SignatureDecl};
pub use pattern::Pattern;
pub use printer::print;
