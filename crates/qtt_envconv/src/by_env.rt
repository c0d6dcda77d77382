//! The second way to answer questions.

use crate::closure::Closure;
use crate::comparing::compared;
use crate::heads::{Found, head_within};
use crate::node::Node;
use bumpalo::Bump;
use qtt_base::MemoryError;
use qtt_term::{Answer, Converter, Globals, Head, Term};
use std::alloc::Global;

/// Answers over environments: the free variables of code stand for closures, and a contraction
/// puts closures in their place. A term is built only where a head is given back. What a question
/// takes goes with its arena. The machine's stack grows neither with the number of contractions
/// nor with how deep terms are nested (measured: a head under 50,000 applications is answered);
/// whoever drops a head that was given back drops a `Term`, by recursion.
#[derive(Clone, Copy, Debug)]
pub struct ByEnv;

impl Converter for ByEnv {
    fn head(&self, alloc: Global, n: u64, env: &Globals, t: &Term) -> Result<Head, MemoryError> {
        let arena = Bump::new(alloc);
        let node = Node::Closure(Closure::of(&arena, t)?);
        match head_within(alloc, &arena, n, env, node)? {
            Found::Head(head, made) => Ok(Head::Done(head.term(alloc, &arena)?, made)),
            Found::Spent => Ok(Head::Spent),
        }
    }

    fn compare(
        &self,
        alloc: Global,
        n: u64,
        env: &Globals,
        t: &Term,
        u: &Term,
    ) -> Result<Answer, MemoryError> {
        let arena = Bump::new(alloc);
        let left = Node::Closure(Closure::of(&arena, t)?);
        let right = Node::Closure(Closure::of(&arena, u)?);
        compared(alloc, &arena, n, env, left, right)
    }
}
