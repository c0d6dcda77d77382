//! Core terms: their definitions, their laws, and the types that hold them.
//!
//! `Term::copy`, `same`, `shift`, `subst` and `fill` are their definitions, and every literal
//! of a term of the code is in the range of 64 bits (`Term::literals_in_range`). `Globals`,
//! with `prim`, `add_family`, `set_constructors`, `add_signature`, `set_body`, its look-ups,
//! `copy`, `part` and `adopt`, keeps ids, names, order and contents exactly, and a refused growth
//! changes nothing; in every environment bodies are closed and results counted
//! (`laws::globals_keep_their_facts`). Beside each condition stands its test, and
//! `Globals::is_in_shape` tells whether the environment and all its items are in shape.
//!
//! `laws`: simultaneous substitution (`substitution_laws`); exactly the values have the outcome
//! value (`values_are_kept`); each full step is a contraction (`full_steps_contract`); no
//! contraction brings a free variable into a term where bodies are closed
//! (`steps_keep_closed`), nor a literal out of range where none is in the bodies
//! (`steps_keep_range`); the tapes of a run are those of its events (`tapes_are_of_events`);
//! environments grow by their ids (`environments_grow`), and are those that their entries make
//! up (`entries_are_the_environment`). `examples`: worked runs, questions, readings of indices
//! and judgements, and that Prim is well formed and complete.
//!
//! `signatures` and `telescopes` are the table of signatures, and what families and constructors
//! ask, as code. `specs/Ask` is what every judgement is a table of: a list of questions, whose
//! premises `specs/Premises` writes once.
//!
//! A theory: its lemmas may be cited.
#![tactic(auto)]

pub mod conditions;
pub mod context;
pub mod convert;
pub mod copying;
pub mod environment_shape;
pub mod equality;
pub mod examples;
pub mod free;
pub mod globals;
pub mod items;
mod keyed;
pub mod laws;
pub mod literals;
mod prim_items;
pub mod rule;
pub mod shape;
pub mod shifting;
pub mod signatures;
pub mod substitution;
pub mod telescopes;
pub mod term;

pub use context::{Ctx, Sigma};
pub use convert::{Answer, Converter, Head, Path, Question};
pub use globals::Globals;
pub use items::{Constructor, Definition, Family};
pub use rule::Rule;
pub use term::{Branch, Case, ConId, Delete, IoKind, Term, TermError};
