//! One pair of a comparison.

ghost use Rattle.std.specs.Prelude.{IfOk};
ghost use Rattle.qtt_term.specs.Globals.{env as env_of};
ghost use Rattle.qtt_term.specs.Signature.{Env};
ghost use Rattle.qtt_envconv.specs.Nodes.{node as node_of, IsReady};
ghost use Rattle.qtt_envconv.specs.Pairs.{LeadsTo, HeadsLeadTo};

use crate::heads::{Found, head_within};
use crate::node::Node;
use crate::opening::Opened;
use crate::sameness::same;
use bumpalo::Bump;
use qtt_base::MemoryError;
use qtt_term::Globals;
use std::alloc::Global;

/// What the comparison of two terms leads to.
#[derive(Drop)]
pub enum Outcome<'a> {
    /// They are the same.
    Same,
    /// Their components are to be compared, after so many contractions.
    Splits(u64, Vec<Node<'a>>, Vec<Node<'a>>),
    Differs,
    Spent,
}

/// Compares two terms but for their components, within `n` contractions.
pub fn compared_pair<'a>(
    alloc: Global,
    arena: &'a Bump,
    n: u64,
    env: &'a Globals,
    left: Node<'a>,
    right: Node<'a>,
) -> Result<Outcome<'a>, MemoryError>
    requires left { IsReady (env_of env.now) left }
    requires right { IsReady (env_of env.now) right }
    ensures { IfOk result (λ o. LeadsTo (env_of env.now) n (node_of left.entry)
        (node_of right.entry) o) }
{
    if same(alloc, arena, left, right)? {
        return Ok(Outcome::Same);
    }
    match head_within(alloc, arena, n, env, left)? {
        Found::Head(left, made) => {
            let rest = n - made;
            match head_within(alloc, arena, rest, env, right)? {
                Found::Head(right, more) => heads_compared(alloc, arena, made + more, left, right),
                Found::Spent => Ok(Outcome::Spent),
            }
        }
        Found::Spent => Ok(Outcome::Spent),
    }
}

/// Compares two heads but for their components, after so many contractions.
fn heads_compared<'a>(
    alloc: Global,
    arena: &'a Bump,
    made: u64,
    left: Node<'a>,
    right: Node<'a>,
) -> Result<Outcome<'a>, MemoryError>
    ensures { (E : Env) → IsReady E left.entry → IsReady E right.entry →
        IfOk result (λ o. HeadsLeadTo E made (node_of left.entry) (node_of right.entry) o) }
{
    match (left.opened(alloc, arena)?, right.opened(alloc, arena)?) {
        (Opened::Variable(i), Opened::Variable(j)) => {
            if i == j {
                Ok(Outcome::Splits(made, Vec::new(alloc), Vec::new(alloc)))
            } else {
                Ok(Outcome::Differs)
            }
        }
        (Opened::Form(shape, lefts), Opened::Form(other, rights)) => {
            if shape.same(other) && lefts.len() == rights.len() {
                Ok(Outcome::Splits(made, lefts, rights))
            } else {
                Ok(Outcome::Differs)
            }
        }
        _ => Ok(Outcome::Differs),
    }
}
