//! What an instruction comes to.

use qtt_value::Val;

/// Why a run trapped.
#[derive(Clone, Copy, Debug, PartialEq, Eq)]
pub enum TrapKind {
    MissingClause,
    DivisionByZero,
    BadInputLine,
}

/// What an instruction did.
#[derive(Clone, Copy)]
pub enum Event<'a> {
    /// The machine goes on, without a tick.
    Went,
    /// The machine goes on, with a tick.
    Ticked,
    /// The last frame gave this value back.
    Ended(Val<'a>),
    Trapped(TrapKind),
}

/// Why the machine stopped.
#[derive(Clone, Copy)]
pub enum Halt<'a> {
    /// The evaluation gave this value.
    Done(Val<'a>),
    Trap(TrapKind),
    /// The evaluation goes on after as many ticks as it might make.
    Spent,
}
