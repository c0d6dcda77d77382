//! Tests of the public calls of `qtt_core_check`.
#![tactic(auto)]

#[cfg(test)]
mod tests;
