//! Contexts, and the parts of the judgement.

use crate::term::Term;
use qtt_usage::mult::Mult;

/// A context: its variables, the outermost first, each type under the variables before it; and
/// for each local name, the innermost last, the term and the type that it stands for, in the
/// whole context.
#[derive(Debug, Drop)]
pub struct Ctx {
    pub vars: Vec<(Mult, Term)>,
    pub names: Vec<(Term, Term)>,
}

/// The part in which a term is judged: in the erased part every use is 0.
#[derive(Clone, Copy, Debug, PartialEq, Eq)]
pub enum Sigma {
    Erased,
    Run,
}
