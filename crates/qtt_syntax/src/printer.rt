//! The canonical text of a module.

mod expression;
mod forms;
mod items;
mod patterns;
mod words;

pub use items::print;
