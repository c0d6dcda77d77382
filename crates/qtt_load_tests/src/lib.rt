//! Tests of the public calls of `qtt_load`.
#![tactic(auto)]

#[cfg(test)]
mod tests;
