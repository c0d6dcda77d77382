//! Literals that are copied freely.

ghost use Rattle.std.specs.Prelude.{◌≡◌, ◌↔◌, map, IfOk, IsTrue};
ghost use Rattle.qtt_envconv.specs.Shapes.{literal};

use bumpalo::Bump;
use qtt_base::MemoryError;
use qtt_prims::{Lit, Text};
use std::alloc::Global;

/// A literal. Its text stays where it is as long as the arena or the term that it is from.
#[derive(Clone, Copy)]
pub enum Literal<'a> {
    Int(i64),
    Text(&'a str),
}

impl<'a> Literal<'a> {
    pub fn of(source: &'a Lit) -> Literal<'a>
        ensures { literal result ≡ source.now }
    {
        match source {
            Lit::Int(n) => Literal::Int(*n),
            Lit::Text(text) => Literal::Text(text.as_str()),
        }
    }

    /// A literal whose text is put into the arena.
    pub fn placed(arena: &'a Bump, source: Lit) -> Result<Literal<'a>, MemoryError>
        ensures { IfOk result (λ l. literal l ≡ source) }
    {
        match source {
            Lit::Int(n) => Ok(Literal::Int(n)),
            Lit::Text(text) => Ok(Literal::Text(arena.try_alloc_str(text.as_str())?)),
        }
    }

    pub fn copied(self, alloc: Global) -> Result<Lit, MemoryError>
        ensures { IfOk result (λ l. l ≡ literal self.entry) }
    {
        match self {
            Literal::Int(n) => Ok(Lit::Int(n)),
            Literal::Text(text) => Ok(Lit::Text(Text::from_str(alloc, text)?)),
        }
    }

    pub fn same(self, other: Literal<'a>) -> bool
        ensures { IsTrue result ↔ (literal self.entry ≡ literal other.entry) }
    {
        match (self, other) {
            (Literal::Int(a), Literal::Int(b)) => a == b,
            (Literal::Text(a), Literal::Text(b)) => a == b,
            _ => false,
        }
    }
}

/// Copies of literals, in order.
pub fn copied_all(alloc: Global, literals: &[Literal<'_>]) -> Result<Vec<Lit>, MemoryError>
    ensures { IfOk result (λ v. v.items ≡ map literal literals.now) }
{
    let mut copies = Vec::with_capacity(alloc, literals.len())?;
    for literal in literals {
        copies.push(literal.copied(alloc)?)?;
    }
    Ok(copies)
}
