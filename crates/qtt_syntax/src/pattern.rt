//! Patterns.

use crate::expr::{Expr, Mark, Named};
use qtt_base::{Name, Span};

/// A pattern of a clause. Each `span` is that of the form's first token.
#[derive(Debug)]
pub enum Pattern {
    Variable {
        mark: Mark,
        name: Name,
        span: Span,
    },
    /// `_`
    Wildcard {
        mark: Mark,
        span: Span,
    },
    /// A constructor with the patterns of its fields.
    Constructor {
        mark: Mark,
        head: Named,
        arguments: Vec<Pattern>,
        span: Span,
    },
    /// `.(e)`
    Dot {
        mark: Mark,
        value: Expr,
        span: Span,
    },
}

// By hand: a value that is given up is then one call for the proof, not a case for each form.
impl Drop for Pattern {
    #[cycle(dropped)]
    fn drop(self) {
        match self {
            Pattern::Variable {
                mark: _,
                name: _name,
                span: _,
            } => {}
            Pattern::Wildcard { mark: _, span: _ } => {}
            Pattern::Constructor {
                mark: _,
                head: _head,
                arguments: _arguments,
                span: _,
            } => {}
            Pattern::Dot {
                mark: _,
                value: _value,
                span: _,
            } => {}
        }
    }
}
