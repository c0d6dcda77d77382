//! Tests of the public calls of `qtt_unify`.
#![tactic(auto)]

#[cfg(test)]
mod tests;
