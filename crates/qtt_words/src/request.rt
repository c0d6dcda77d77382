//! What the program is asked to do.

ghost use Rattle.std.specs.Prelude.{◌≤◌};

use qtt_base::Name;

/// The number by which modules are generated.
#[derive(Debug, Drop)]
pub struct Generation {
    pub number: u32,
    pub ghost positive: { 1 ≤ number },
    pub ghost bounded: { number ≤ 200 },
}

/// A command, with the module that it is about.
#[derive(Debug, Drop)]
pub enum Command {
    Check(Name),
    Core(Name),
    Code(Name),
    Run(Name),
    Generate(Generation),
}

/// A command, and within which bounds it is carried out.
#[derive(Debug, Drop)]
pub struct Request {
    pub command: Command,
    /// How many steps a run may take.
    pub steps: u64,
    /// How many contractions a question may take.
    pub budget: u64,
    /// How many modules, or definitions, are worked on side by side.
    pub jobs: u32,
    pub ghost steps_positive: { 1 ≤ steps },
    pub ghost steps_bounded: { steps ≤ 4_000_000_000 },
    pub ghost budget_positive: { 1 ≤ budget },
    pub ghost budget_bounded: { budget ≤ 10_000_000 },
    pub ghost jobs_positive: { 1 ≤ jobs },
    pub ghost jobs_bounded: { jobs ≤ 64 },
}
