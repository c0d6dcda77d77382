//! The devices of the outside.

/// A device of the outside, which may fail.
#[derive(Clone, Copy, Debug, PartialEq, Eq)]
pub enum Device {
    Vault,
    Input,
    Output,
    Tape,
}
