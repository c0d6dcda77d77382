//! Tests of the public calls of `qtt_edge`.
#![tactic(auto)]

#[cfg(test)]
mod adapters;
#[cfg(test)]
mod line_cutter;
#[cfg(test)]
mod memory;
