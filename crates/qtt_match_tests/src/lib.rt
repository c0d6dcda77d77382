//! Tests of the public calls of `qtt_match`.
#![tactic(auto)]

#[cfg(test)]
mod tests;
