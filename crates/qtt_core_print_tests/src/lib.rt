//! Tests of the public calls of `qtt_core_print`.
#![tactic(auto)]

#[cfg(test)]
mod tests;
