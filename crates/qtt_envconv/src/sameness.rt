//! Whether two terms are the same.

ghost use Rattle.std.specs.Prelude.{◌≡◌, ◌↔◌, IfOk, IsTrue};
ghost use Rattle.qtt_envconv.specs.Nodes.{node as node_of};
ghost use Rattle.qtt_envconv.specs.Opened.{opened as opened_of};
ghost use Rattle.qtt_envconv.specs.Twins.{Joins};

use crate::node::Node;
use crate::opening::Opened;
use bumpalo::Bump;
use qtt_base::MemoryError;
use std::alloc::Global;

/// Two terms that are still to be tested.
#[derive(Clone, Copy)]
pub struct Twins<'a> {
    pub left: Node<'a>,
    pub right: Node<'a>,
}

/// Whether both stand for the same term.
pub fn same<'a>(
    alloc: Global,
    arena: &'a Bump,
    left: Node<'a>,
    right: Node<'a>,
) -> Result<bool, MemoryError>
    ensures { IfOk result (λ b. IsTrue b ↔ (node_of left.entry ≡ node_of right.entry)) }
{
    let mut rest = vec![in alloc; Twins { left, right }]?;
    while let Some(twins) = rest.pop() {
        let left = twins.left.opened(alloc, arena)?;
        let right = twins.right.opened(alloc, arena)?;
        if !joined(&mut rest, left, right)? {
            return Ok(false);
        }
    }
    Ok(true)
}

/// Whether both have the same outline; if so, their components join the others.
fn joined<'a>(
    rest: &mut Vec<Twins<'a>>,
    left: Opened<'a>,
    right: Opened<'a>,
) -> Result<bool, MemoryError>
    ensures { IfOk result (λ b. Joins (opened_of left.entry) (opened_of right.entry)
        rest.old.items rest.new.items b) }
{
    match (left, right) {
        (Opened::Variable(i), Opened::Variable(j)) => Ok(i == j),
        (Opened::Form(shape, lefts), Opened::Form(other, rights)) => {
            if !shape.same(other) || lefts.len() != rights.len() {
                return Ok(false);
            }
            for (i, left) in lefts.iter().enumerate() {
                let left = *left;
                let right = rights[i];
                rest.push(Twins { left, right })?;
            }
            Ok(true)
        }
        _ => Ok(false),
    }
}
