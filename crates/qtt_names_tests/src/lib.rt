//! Tests of the public calls of `qtt_names`.
#![tactic(auto)]

#[cfg(test)]
mod tests;
