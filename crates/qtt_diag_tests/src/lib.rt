//! Tests of the public calls of `qtt_diag`.
#![tactic(auto)]

#[cfg(test)]
mod tests;
