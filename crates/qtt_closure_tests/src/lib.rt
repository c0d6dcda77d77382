//! Tests of the public calls of `qtt_closure`.
#![tactic(auto)]

#[cfg(test)]
mod tests;
