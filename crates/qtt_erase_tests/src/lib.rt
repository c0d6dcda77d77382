//! Tests of the public calls of `qtt_erase`.
#![tactic(auto)]

#[cfg(test)]
mod tests;
