//! Typed terms: substitution with uses, preservation, progress, and tapes that are closed once.
//!
//! For every well-formed environment: inversion of every form; substitution carries uses
//! (`laws::substitution_with_uses`); a full step keeps the type up to conversion and uses no
//! more (`step_keeps_type_and_use`); exact uses and uses within a bound agree
//! (`uses_are_exact`); derivations stand in larger environments (`derivations_grow`); each
//! contraction of a run keeps every open tape used exactly once (`run_keeps_tapes`). Where the
//! environment is complete besides: no closed term of the run part is stuck
//! (`steps_are_never_stuck`), nor is the run of a main (`never_stuck`); its events keep the
//! discipline of tapes, and after a run that ended or trapped each opened tape is closed
//! exactly once (`tapes_closed_once`). A program that drops its handle, or closes it twice, has
//! no derivation (`handles_are_linear`).
//!
//! A theory: its lemmas may be cited.
#![tactic(auto)]

pub mod laws;
