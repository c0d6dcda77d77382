//! Tests of the public calls of `qtt_syntax`.
#![tactic(auto)]

#[cfg(test)]
mod printer;
