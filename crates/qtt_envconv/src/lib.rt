//! Questions about terms, answered over environments.
//!
//! `ByEnv` answers `head` and `compare` exactly as defined, with the exact count, as `BySubst`
//! does. The free variables of code stand for closures: a contraction puts closures in their
//! place, and nothing is substituted but where a head is given back. Heads, sameness, comparisons
//! and the building of a head are loops, so that the machine's stack grows neither with the
//! number of contractions nor with how deep terms are nested.
#![tactic(auto)]

mod assembly;
mod by_env;
mod closure;
mod comparing;
mod components;
mod contraction;
mod frame;
mod heads;
mod literal;
mod node;
mod opening;
mod pair;
mod reading;
mod route;
mod sameness;
mod shape;
mod spine;

pub use by_env::ByEnv;
