//! Tests of the public calls of `qtt_envconv`.
#![tactic(auto)]

#[cfg(test)]
mod tests;
