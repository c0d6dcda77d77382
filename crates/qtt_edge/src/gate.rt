//! The gate that each worker of a build passes.

/// A hook that is called before the check of each module. What it does is seen by no contract.
pub trait Gate: Sync {
    fn pass(&self, module: &str);
}

/// A gate that is always open.
#[derive(Clone, Copy, Debug, PartialEq, Eq)]
pub struct OpenGate;

impl Gate for OpenGate {
    fn pass(&self, _module: &str) {}
}
