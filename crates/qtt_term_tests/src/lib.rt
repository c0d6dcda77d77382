//! Tests of the public calls of `qtt_term`.
#![tactic(auto)]

#[cfg(test)]
mod tests;
