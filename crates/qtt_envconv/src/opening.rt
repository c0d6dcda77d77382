//! Terms opened: what is fixed of them, and their components.

ghost use Rattle.std.specs.Prelude.{◌≡◌, map, length, IfOk};
ghost use Rattle.qtt_term.specs.Signature.{Env};
ghost use Rattle.qtt_term.specs.View.{term, side_by_side};
ghost use Rattle.qtt_envconv.specs.Closures.{closure as closure_of, values as values_of};
ghost use Rattle.qtt_envconv.specs.Components.{component_list, component_in};
ghost use Rattle.qtt_envconv.specs.Nodes.{node as node_of, nodes, stopped as stopped_of};
ghost use Rattle.qtt_envconv.specs.Nodes.{over, put, IsReady, AreReady};
ghost use Rattle.qtt_envconv.specs.Opened.{opened as opened_of, IsWhole, PartsReady};
ghost use Rattle.qtt_envconv.specs.Shapes.{literal as literal_of};

use crate::closure::{Closure, Referent};
use crate::components::components;
use crate::literal::Literal;
use crate::node::{Node, Stopped};
use crate::shape::Shape;
use bumpalo::Bump;
use qtt_base::MemoryError;
use std::alloc::Global;

/// A term opened.
#[derive(Drop)]
pub enum Opened<'a> {
    Variable(u32),
    Form(Shape<'a>, Vec<Node<'a>>),
}

impl<'a> Node<'a> {
    /// The term opened.
    pub fn opened(self, alloc: Global, arena: &'a Bump) -> Result<Opened<'a>, MemoryError>
        ensures means { IfOk result (λ o. opened_of o ≡ node_of self.entry) }
        ensures whole { IfOk result (λ o. IsWhole o) }
        ensures ready { (E : Env) → IsReady E self.entry → IfOk result (λ o. PartsReady E o) }
    {
        match self {
            Node::Variable(index) => Ok(Opened::Variable(index)),
            Node::Literal(literal) => Ok(Opened::Form(Shape::Literal(literal), Vec::new(alloc))),
            Node::Closure(closure) => closure.opened(alloc, arena),
            Node::Stopped(stopped) => stopped.opened(alloc, arena),
        }
    }
}

impl<'a> Closure<'a> {
    fn opened(self, alloc: Global, arena: &'a Bump) -> Result<Opened<'a>, MemoryError>
        ensures means { IfOk result (λ o. opened_of o ≡ closure_of self.entry) }
        ensures whole { IfOk result (λ o. IsWhole o) }
        ensures ready { (E : Env) → IfOk result (λ o. PartsReady E o) }
    {
        match self.referent(arena)? {
            Referent::Variable(index) => Ok(Opened::Variable(index)),
            Referent::Closure(closure) => match Shape::of(closure.code) {
                Some(shape) => Ok(Opened::Form(shape, closure.parts(alloc, arena)?)),
                None => unreachable!(),
            },
        }
    }

    /// The components, each where it stands.
    fn parts(self, alloc: Global, arena: &'a Bump) -> Result<Vec<Node<'a>>, MemoryError>
        ensures means { IfOk result (λ v. nodes v.items ≡
            map (component_in (values_of self.entry.values.now))
            (component_list (term self.entry.code.now))) }
        ensures ready { (E : Env) → IfOk result (λ v. AreReady E v.items) }
    {
        let mut parts = Vec::new(alloc);
        for component in components(alloc, self.code)? {
            let values = self.values.under(arena, component.binders)?;
            let code = component.code;
            parts.push(Node::Closure(Closure { code, values }))?;
        }
        Ok(parts)
    }
}

impl<'a> Stopped<'a> {
    fn opened(self, alloc: Global, arena: &'a Bump) -> Result<Opened<'a>, MemoryError>
        ensures means { IfOk result (λ o. opened_of o ≡ stopped_of self.entry) }
        ensures whole { IfOk result (λ o. IsWhole o) }
        ensures ready { (E : Env) → IsReady E self.entry.inner.now →
            IfOk result (λ o. PartsReady E o) }
    {
        match self.closure.opened(alloc, arena)? {
            Opened::Variable(index) => Ok(Opened::Variable(index)),
            Opened::Form(shape, mut parts) => {
                put_literals(&mut parts, self.literals);
                put_inner(&mut parts, self.place, *self.inner);
                Ok(Opened::Form(shape, parts))
            }
        }
    }
}

/// Puts literals in the place of the first components.
fn put_literals<'a>(parts: &mut Vec<Node<'a>>, literals: &[Literal<'a>])
    ensures means { side_by_side (nodes parts.new.items) ≡ over (map literal_of literals.now)
        (side_by_side (nodes parts.old.items)) }
    ensures count { length parts.new.items ≡ length parts.old.items }
    ensures ready { (E : Env) → AreReady E parts.old.items → AreReady E parts.new.items }
{
    for (i, literal) in literals.iter().enumerate() {
        if i < parts.len() {
            parts[i] = Node::Literal(*literal);
        }
    }
}

/// Puts a term in the place of a component.
fn put_inner<'a>(parts: &mut Vec<Node<'a>>, place: usize, inner: Node<'a>)
    ensures means { side_by_side (nodes parts.new.items) ≡ put place (node_of inner.entry)
        (side_by_side (nodes parts.old.items)) }
    ensures count { length parts.new.items ≡ length parts.old.items }
    ensures ready { (E : Env) → AreReady E parts.old.items → IsReady E inner.entry →
        AreReady E parts.new.items }
{
    if place < parts.len() {
        parts[place] = inner;
    }
}
