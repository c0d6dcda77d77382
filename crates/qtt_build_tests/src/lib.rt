//! Tests of the public calls of `qtt_build`.
#![tactic(auto)]

#[cfg(test)]
mod builds;
#[cfg(test)]
mod faults;
#[cfg(test)]
mod generated;
#[cfg(test)]
mod meeting;
#[cfg(test)]
mod tests;
#[cfg(test)]
mod vault;
