//! Tests of the public call of `qtt_cli`: worked rows, and devices that fail.
#![tactic(auto)]

#[cfg(test)]
mod builds;
#[cfg(test)]
mod calls;
#[cfg(test)]
mod devices;
#[cfg(test)]
mod jobs;
#[cfg(test)]
mod kinds;
#[cfg(test)]
mod limits;
#[cfg(test)]
mod listings;
#[cfg(test)]
mod long_lines;
#[cfg(test)]
mod prefixes;
#[cfg(test)]
mod questions;
#[cfg(test)]
mod rows;
#[cfg(test)]
mod runs;
#[cfg(test)]
mod sinks;
#[cfg(test)]
mod smallest;
#[cfg(test)]
mod sources;
#[cfg(test)]
mod tables;
#[cfg(test)]
mod tapes;
#[cfg(test)]
mod vaults;
#[cfg(test)]
mod words;
