//! The loading of a build's modules, and the order in which they are checked.
//!
//! `load` reads the named module, then imports in the order in which they are first mentioned,
//! breadth first, and answers exactly these trees in this order, or exactly why loading stops:
//! the first module that is not there, or is refused for its bytes, its first fault or its
//! header's name, or one module more than a build may have. It is so of some texts, which are
//! the vault's where it tells them. `by_rank` answers exactly the modules by rank and name, or
//! the ring of imports that is told, refused at its first module's import of the next one.
//! `laws`: what is loaded is a build (`loaded_are_builds`), and each ring that is told has its
//! place (`rings_have_places`). Worked: `examples`.
#![tactic(auto)]

mod errors;
pub mod examples;
pub mod laws;
mod loaded;
mod loading;
mod module;
mod order;
mod refusal;
mod stage;
mod text;

pub use errors::{LoadError, OrderError};
pub use loaded::Loaded;
pub use loading::load;
pub use order::by_rank;
