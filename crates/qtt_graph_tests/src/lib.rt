//! Tests of the public calls of `qtt_graph`.
#![tactic(auto)]

#[cfg(test)]
mod tests;
