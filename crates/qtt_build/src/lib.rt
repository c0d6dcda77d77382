//! What a build is, and what that means.
//!
//! `specs/Build` is the build of a named module as one definition over the texts that are there:
//! loading, the order of modules by rank and name or the ring that is told, and each module of a
//! rank judged over what the ranks before it built (`specs/Built`), within a budget for each
//! question; or why there is none. No definition speaks of the number of workers.
//!
//! `laws`: what is built is declared by the rules, rank by rank and without a budget, and a build
//! stops while loading, for a ring, or because the first module that is refused, in the order of
//! ranks and names, is so for its header, a name or what is filled in, for a premise that is false,
//! or for the first question that takes more than the budget (`builds_are_judged`). The named
//! module is among those that are built (`roots_are_built`). What the build of a text declares is
//! well formed and, where no module has a hole, complete (`builds_keep_form`); it is one thing
//! alone, and where a build stops for another cause than a budget nothing is declared
//! (`builds_declare_once`). Worked: `examples::builds_as_worked`.
//!
//! `build_all` gives exactly that build of some texts, which are the vault's where it tells them,
//! for every number of jobs, and the place of the named module; or exactly why there is none. A
//! rank's modules are judged by threads that read one environment; each passes the gate first, and
//! the first refusal is that of the order of names. `module_named` finds a module of a build by its
//! name.
#![tactic(auto)]

mod adoption;
mod build;
mod building;
mod built;
mod errors;
pub mod examples;
mod imports;
pub mod laws;
mod order;
mod rank;
mod ranks;
mod worker;

pub use build::build_all;
pub use built::Built;
pub use errors::BuildError;
pub use order::module_named;
