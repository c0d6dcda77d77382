//! Tests of the public calls of `qtt_conv`.
#![tactic(auto)]

#[cfg(test)]
mod tests;
