//! Heads within a number of contractions.

ghost use Rattle.std.specs.Prelude.{◌≡◌, IfOk};
ghost use Rattle.qtt_term.specs.Globals.{env as env_of};
ghost use Rattle.qtt_term.specs.Question.{head as head_of};
ghost use Rattle.qtt_envconv.specs.Closures.{closure as closure_of};
ghost use Rattle.qtt_envconv.specs.Nodes.{node as node_of, IsReady};
ghost use Rattle.qtt_envconv.specs.Spines.{found, IsFoundReady};

use crate::closure::Closure;
use crate::node::Node;
use crate::spine::{Spine, Step};
use bumpalo::Bump;
use qtt_base::MemoryError;
use qtt_term::Globals;
use std::alloc::Global;

/// What the head of a term came to: the head, with the number of contractions made, or that one
/// more than may be made would be.
#[derive(Clone, Copy)]
pub enum Found<'a> {
    Head(Node<'a>, u64),
    Spent,
}

/// The head of a term within `n` contractions. A term that stopped is its own.
pub fn head_within<'a>(
    alloc: Global,
    arena: &'a Bump,
    n: u64,
    env: &'a Globals,
    node: Node<'a>,
) -> Result<Found<'a>, MemoryError>
    requires { IsReady (env_of env.now) node }
    ensures found { IfOk result (λ h. found h ≡ head_of (env_of env.now) n (node_of node.entry)) }
    ensures ready { IfOk result (λ h. IsFoundReady (env_of env.now) h) }
{
    match node {
        Node::Closure(closure) => closure_head(alloc, arena, n, env, closure),
        Node::Variable(_) => Ok(Found::Head(node, 0)),
        Node::Literal(_) => Ok(Found::Head(node, 0)),
        Node::Stopped(_) => Ok(Found::Head(node, 0)),
    }
}

fn closure_head<'a>(
    alloc: Global,
    arena: &'a Bump,
    n: u64,
    env: &'a Globals,
    closure: Closure<'a>,
) -> Result<Found<'a>, MemoryError>
    ensures found { IfOk result (λ h. found h ≡ head_of (env_of env.now) n
        (closure_of closure.entry)) }
    ensures ready { IfOk result (λ h. IsFoundReady (env_of env.now) h) }
{
    let mut spine = Spine::of(alloc, arena, closure)?;
    let mut made = 0;
    loop {
        match spine.step(alloc, arena, env)? {
            Step::Head(head) => return Ok(Found::Head(head, made)),
            Step::Contracted(next) => {
                if made == n {
                    return Ok(Found::Spent);
                }
                made += 1;
                spine = next;
            }
        }
    }
}
