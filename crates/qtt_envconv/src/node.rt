//! Terms as questions hold them: closures, and heads that were reached from closures.

use crate::closure::Closure;
use crate::literal::Literal;

/// A term.
#[cycle(node)]
#[derive(Clone, Copy)]
pub enum Node<'a> {
    Variable(u32),
    Literal(Literal<'a>),
    Closure(Closure<'a>),
    Stopped(Stopped<'a>),
}

/// A term that stopped at the head of a component: the closure that it came from, the literals
/// that its first components came to, and the component with this number, which came to `inner`.
#[cycle(node)]
#[derive(Clone, Copy)]
pub struct Stopped<'a> {
    pub closure: Closure<'a>,
    pub literals: &'a [Literal<'a>],
    pub place: usize,
    pub inner: &'a Node<'a>,
}
