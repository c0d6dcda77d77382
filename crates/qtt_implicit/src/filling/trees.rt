//! Expressions in an arena. Names are borrowed from the text and from the signatures.

ghost use Rattle.std.specs.Prelude.{◌≡◌, suc, ◌+◌, IfOk};

use bumpalo::Bump;
use qtt_base::{MemoryError, Name, Span};
use qtt_syntax::{Mark, Target};
use qtt_usage::mult::Mult;

/// A used name.
#[derive(Clone, Copy)]
pub struct Used<'a> {
    pub path: &'a Name,
    pub target: Target,
    pub span: Span,
}

/// The name that a binder binds, and its place.
#[derive(Clone, Copy)]
pub struct Bound<'a> {
    pub name: &'a Name,
    pub span: Span,
}

/// An expression, with the forms of `Expr`.
#[cycle(node)]
#[derive(Clone, Copy)]
pub enum Node<'a> {
    /// What is unknown, at a place.
    Unknown(Span),
    Name(Used<'a>),
    Number {
        value: i64,
        span: Span,
    },
    Text {
        value: &'a [u8],
        span: Span,
    },
    Type {
        level: u64,
        level_span: Span,
        span: Span,
    },
    Hole {
        name: &'a Name,
        span: Span,
    },
    The {
        ty: &'a Node<'a>,
        value: &'a Node<'a>,
        span: Span,
    },
    Apply {
        function: &'a Node<'a>,
        arguments: &'a Arguments<'a>,
        span: Span,
    },
    Pi {
        mark: Mark,
        mult: Mult,
        name: &'a Name,
        domain: &'a Node<'a>,
        codomain: &'a Node<'a>,
        span: Span,
    },
    Lambda {
        binders: &'a Binders<'a>,
        body: &'a Node<'a>,
        span: Span,
    },
    Let {
        mult: Mult,
        name: Bound<'a>,
        ty: Annotation<'a>,
        value: &'a Node<'a>,
        body: &'a Node<'a>,
        span: Span,
    },
    Do {
        statements: &'a Statements<'a>,
        span: Span,
    },
}

/// The type that a `let` may have.
#[cycle(node)]
#[derive(Clone, Copy)]
pub enum Annotation<'a> {
    Untyped,
    Typed(&'a Node<'a>),
}

/// The arguments of an application.
#[cycle(node)]
#[derive(Clone, Copy)]
pub enum Arguments<'a> {
    End,
    More {
        mark: Mark,
        value: &'a Node<'a>,
        others: &'a Arguments<'a>,
    },
}

/// The binders of a `\`.
#[cycle(node)]
#[derive(Clone, Copy)]
pub enum Binders<'a> {
    End,
    Plain {
        name: Bound<'a>,
        others: &'a Binders<'a>,
    },
    Typed {
        mult: Mult,
        name: Bound<'a>,
        ty: &'a Node<'a>,
        span: Span,
        others: &'a Binders<'a>,
    },
}

/// The statements of a `do`.
#[cycle(node)]
#[derive(Clone, Copy)]
pub enum Statements<'a> {
    End,
    Bind {
        name: Bound<'a>,
        value: &'a Node<'a>,
        others: &'a Statements<'a>,
    },
    Let {
        mult: Mult,
        name: Bound<'a>,
        ty: Annotation<'a>,
        value: &'a Node<'a>,
        span: Span,
        others: &'a Statements<'a>,
    },
    Run {
        value: &'a Node<'a>,
        span: Span,
        others: &'a Statements<'a>,
    },
}

/// Puts a value into the arena.
pub fn placed<'a, T: Drop>(arena: &'a Bump, value: T) -> Result<&'a T, MemoryError>
    ensures { IfOk result (λ r. r.now ≡ value) }
{
    Ok(arena.try_alloc(value)?)
}

/// One binder deeper.
pub fn inside(depth: u32) -> Result<u32, MemoryError>
    ensures { IfOk result (λ d. d ≡ suc depth) }
{
    match depth.checked_add(1) {
        Some(depth) => Ok(depth),
        None => Err(MemoryError),
    }
}

/// So many binders deeper.
pub fn deeper(depth: u32, by: u32) -> Result<u32, MemoryError>
    ensures { IfOk result (λ d. d ≡ depth + by) }
{
    match depth.checked_add(by) {
        Some(depth) => Ok(depth),
        None => Err(MemoryError),
    }
}
