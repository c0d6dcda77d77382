//! That texts and the core speak of one module Prim.
//!
//! What texts see of the module Prim is what the core judges by: number by number the same names
//! and types, and each family and constructor of the core's environment is among them
//! (`laws::prim_agrees`).
#![tactic(auto)]

pub mod laws;
