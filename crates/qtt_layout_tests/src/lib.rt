//! Tests of the public calls of `qtt_layout`.
#![tactic(auto)]

#[cfg(test)]
mod tests;
