//! The law of the module Prim. The function does nothing: its contract is the law.

ghost use Rattle.qtt_prim_laws.specs.Agreement.{PrimAgrees};

/// What texts see of the module Prim is what the core judges by: number by number the same names
/// and types, and each family and constructor of the core's environment is among them.
pub fn prim_agrees()
    ensures { PrimAgrees }
{}
