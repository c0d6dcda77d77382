//! Each rule accepted, and failing at its premises; the erased part; questions that are spent.

mod over_program;
mod questions;
mod rules;
mod table;
mod terms;
