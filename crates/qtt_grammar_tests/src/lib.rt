//! Tests of the public calls of `qtt_grammar`.
#![tactic(auto)]

#[cfg(test)]
mod tests;
