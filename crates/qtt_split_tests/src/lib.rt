//! Tests of the public calls of `qtt_split`.
#![tactic(auto)]

#[cfg(test)]
mod tests;
