//! Tests of the public calls of `qtt_implicit`.
#![tactic(auto)]

#[cfg(test)]
mod filling;
#[cfg(test)]
mod forgetting;
