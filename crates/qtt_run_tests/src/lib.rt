//! Tests of the public calls of `qtt_run`.
#![tactic(auto)]

#[cfg(test)]
mod tests;
