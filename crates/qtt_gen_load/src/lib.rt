//! The loading of generated modules.
//!
//! For each number from 1 to 200, loading `Main` among the texts that `qtt_gen` generates lacks no
//! module (`generated_modules_are_there`), refuses none, and comes to no more of them than a build
//! may have, so that modules are loaded (`generated_modules_are_loaded`).
#![tactic(auto)]

mod laws;

pub use laws::{generated_modules_are_loaded, generated_modules_are_there};
