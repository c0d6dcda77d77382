//! Tests of the public calls of `qtt_code`.
#![tactic(auto)]

#[cfg(test)]
mod tests;
