//! Tests of the public calls of `qtt_positive`.
#![tactic(auto)]

#[cfg(test)]
mod tests;
