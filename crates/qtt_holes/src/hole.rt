//! What is told of a hole.

use qtt_base::{Name, Span};
use qtt_term::Term;
use qtt_usage::mult::Mult;

/// A name in sight of a hole: what it stands for, and how often the hole's text may use it. `left`
/// is `None` where the name stands for a term that is no variable.
#[derive(Debug, Drop)]
pub struct Seen {
    pub name: Name,
    pub ty: Term,
    pub stands: Term,
    pub left: Option<Mult>,
}

/// A hole, its goal, and the names in sight: those of pattern variables from left to right, then
/// local names, the outermost first. The goal and the terms of the names stand behind `depth`
/// binders.
#[derive(Debug, Drop)]
pub struct Hole {
    pub name: Name,
    pub span: Span,
    pub goal: Term,
    pub depth: u32,
    pub seen: Vec<Seen>,
}
