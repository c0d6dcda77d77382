//! What elaboration is asked for, and what it answers.

ghost use Rattle.std.specs.Prelude.{◌≡◌, IfOk};
ghost use Rattle.qtt_bidi.specs.Elaboration.{lifted as lifted_so};
ghost use Rattle.qtt_bidi.specs.Seen.{mode_of};

use qtt_term::{IoKind, Term, TermError};
use qtt_usage::mult::Mult;
use qtt_usage::usage::Usage;
use std::alloc::Global;

/// Whether a type is found, or a given type is checked.
#[derive(Debug, Drop)]
pub enum Mode {
    Synth,
    Check(Term),
}

impl Mode {
    /// The mode under one more binder.
    pub fn lifted(&self, alloc: Global) -> Result<Mode, TermError>
        ensures { IfOk result (λ m. mode_of m ≡ lifted_so (mode_of self.now)) }
    {
        match self {
            Mode::Synth => Ok(Mode::Synth),
            Mode::Check(ty) => Ok(Mode::Check(ty.shift(alloc, 0, 1)?)),
        }
    }
}

/// The type of an expression, its core, and the uses of the context's variables.
#[derive(Debug, Drop)]
pub struct Judged {
    pub ty: Term,
    pub core: Term,
    pub uses: Usage,
}

/// A type, and its level.
#[derive(Debug, Drop)]
pub struct Classified {
    pub core: Term,
    pub level: u32,
}

/// A function type taken apart.
#[derive(Debug, Drop)]
pub struct FunctionType {
    pub mult: Mult,
    pub domain: Term,
    pub codomain: Term,
}

/// A type of actions taken apart.
#[derive(Debug, Drop)]
pub struct ActionType {
    pub kind: IoKind,
    pub result: Term,
}

/// The type and the core of an expression, and the uses of the context's variables, the newest
/// first.
#[derive(Debug, Drop)]
pub struct Synth {
    pub ty: Term,
    pub core: Term,
    pub usage: Usage,
}

/// The core of an expression of a given type, and the uses of the context's variables, the
/// newest first.
#[derive(Debug, Drop)]
pub struct Checked1 {
    pub core: Term,
    pub usage: Usage,
}
