//! Tests of the public calls of `qtt_bidi`.
#![tactic(auto)]

#[cfg(test)]
mod accepted;
#[cfg(test)]
mod questions;
#[cfg(test)]
mod refused;
#[cfg(test)]
mod stands;
#[cfg(test)]
mod texts;
