//! Expressions.

use qtt_base::{GlobalId, Name, Span};
use qtt_usage::mult::Mult;

/// How a part came into the tree.
#[derive(Clone, Copy, Debug, PartialEq, Eq)]
pub enum Mark {
    /// The text has it.
    Written,
    /// The text has it in braces.
    Braced,
    /// It was filled in.
    Inserted,
}

/// What a used name stands for.
#[derive(Clone, Copy, Debug, PartialEq, Eq)]
pub enum Target {
    /// Names are not yet looked up.
    Unknown,
    /// The local binder with this many others inside it.
    Local(u32),
    Global(GlobalId),
}

/// A used name.
#[derive(Debug, Drop)]
pub struct Named {
    pub path: Name,
    pub target: Target,
    pub span: Span,
}

/// The name that a binder binds, `_` where it binds none, and its place.
#[derive(Debug, Drop)]
pub struct Local {
    pub name: Name,
    pub span: Span,
}

/// An expression. Each `span` is that of the form's first token, which is a bracket only where
/// it begins a function's or a domain's part of the form.
#[cycle(tree)]
#[derive(Debug)]
pub enum Expr {
    Name(Named),
    Number {
        value: i64,
        span: Span,
    },
    /// The value has one byte for each escape.
    Text {
        value: Vec<u8>,
        span: Span,
    },
    /// `Type` and its level; where no number is written, `level_span` is `span`.
    Type {
        level: u64,
        level_span: Span,
        span: Span,
    },
    /// `?name`
    Hole {
        name: Name,
        span: Span,
    },
    /// `the T e`
    The {
        ty: Box<Expr>,
        value: Box<Expr>,
        span: Span,
    },
    /// A function with one argument or more.
    Apply {
        function: Box<Expr>,
        arguments: Vec<Argument>,
        span: Span,
    },
    /// `A -> B` is the same form with the name `_` and the multiplicity many.
    Pi {
        mark: Mark,
        mult: Mult,
        name: Name,
        domain: Box<Expr>,
        codomain: Box<Expr>,
        span: Span,
    },
    Lambda {
        binders: Vec<Binder>,
        body: Box<Expr>,
        span: Span,
    },
    Let {
        mult: Mult,
        name: Local,
        ty: Option<Box<Expr>>,
        value: Box<Expr>,
        body: Box<Expr>,
        span: Span,
    },
    /// The last statement is an expression.
    Do {
        statements: Vec<Statement>,
        span: Span,
    },
}

// By hand: a value that is given up is then one call for the proof, not a case for each form.
impl Drop for Expr {
    #[cycle(dropped)]
    fn drop(self) {
        match self {
            Expr::Name(_name) => {}
            Expr::Number { value: _, span: _ } => {}
            Expr::Type {
                level: _,
                level_span: _,
                span: _,
            } => {}
            Expr::Text {
                value: _value,
                span: _,
            } => {}
            Expr::Hole {
                name: _name,
                span: _,
            } => {}
            Expr::The {
                ty: _ty,
                value: _value,
                span: _,
            } => {}
            Expr::Apply {
                function: _function,
                arguments: _arguments,
                span: _,
            } => {}
            Expr::Pi {
                mark: _,
                mult: _,
                name: _name,
                domain: _domain,
                codomain: _codomain,
                span: _,
            } => {}
            Expr::Lambda {
                binders: _binders,
                body: _body,
                span: _,
            } => {}
            Expr::Let {
                mult: _,
                name: _name,
                ty: _ty,
                value: _value,
                body: _body,
                span: _,
            } => {}
            Expr::Do {
                statements: _statements,
                span: _,
            } => {}
        }
    }
}

/// An argument of an application, by how it came into the tree.
#[cycle(tree)]
#[derive(Debug, Drop)]
pub enum Argument {
    Written(Expr),
    Braced(Expr),
    Inserted(Expr),
}

/// A binder of a `\`.
#[cycle(tree)]
#[derive(Debug, Drop)]
pub enum Binder {
    Plain(Local),
    Typed {
        mult: Mult,
        name: Local,
        ty: Expr,
        span: Span,
    },
}

/// A statement of a `do`.
#[cycle(tree)]
#[derive(Debug, Drop)]
pub enum Statement {
    /// `x <- e`
    Bind {
        name: Local,
        value: Expr,
    },
    /// `let x : T = e`
    Let {
        mult: Mult,
        name: Local,
        ty: Option<Box<Expr>>,
        value: Expr,
        span: Span,
    },
    /// An expression, with the place of its first token, which may be a bracket.
    Run {
        value: Expr,
        span: Span,
    },
}
