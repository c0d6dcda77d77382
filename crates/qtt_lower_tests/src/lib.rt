//! Tests of the public calls of `qtt_lower`.
#![tactic(auto)]

#[cfg(test)]
mod tests;
