//! Tests of the calls of `qtt_holes`: the walk to a hole, and the lines of one.
#![tactic(auto)]

#[cfg(test)]
mod telling;
#[cfg(test)]
mod tests;
