//! Comparisons: pairs of terms one after the other, under one count.

ghost use Rattle.std.specs.Prelude.{◌≡◌, ◌∷◌, ◌++◌, vec_len, IfOk, OnOk};
ghost use Rattle.qtt_term.specs.Globals.{env as env_of};
ghost use Rattle.qtt_term.specs.Answers.{answer as answer_of};
ghost use Rattle.qtt_term.specs.Question.{compare as compare_within, beside};
ghost use Rattle.qtt_term.specs.Signature.{Env};
ghost use Rattle.qtt_term.specs.View.{side_by_side};
ghost use Rattle.qtt_envconv.specs.Nodes.{node as node_of, nodes, IsReady, AreReady};
ghost use Rattle.qtt_envconv.specs.Stacks.{item_of, pairs, path as path_of, PairsReady, RoundTo, TakesTo};

use crate::closure::placed;
use crate::node::Node;
use crate::pair::{Outcome, compared_pair};
use crate::route::Route;
use bumpalo::Bump;
use qtt_base::MemoryError;
use qtt_term::{Answer, Globals};
use std::alloc::Global;

/// Two terms that are still to be compared, and their place.
#[derive(Clone, Copy)]
pub struct Pair<'a> {
    pub route: Route<'a>,
    pub left: Node<'a>,
    pub right: Node<'a>,
}

/// How far a comparison came: to its answer, or to a contraction, after which so many may be
/// made for the pairs that are left.
#[derive(Drop)]
pub enum Round<'a> {
    Answered(Answer),
    Contracted(u64, Vec<Pair<'a>>),
}

/// Compares two terms within `n` contractions.
pub fn compared<'a>(
    alloc: Global,
    arena: &'a Bump,
    n: u64,
    env: &'a Globals,
    left: Node<'a>,
    right: Node<'a>,
) -> Result<Answer, MemoryError>
    requires left { IsReady (env_of env.now) left }
    requires right { IsReady (env_of env.now) right }
    ensures { IfOk result (λ a. answer_of a ≡ compare_within (env_of env.now) n (node_of left.entry)
        (node_of right.entry)) }
{
    let first = Pair {
        route: Route::Whole,
        left,
        right,
    };
    let mut left = n;
    let mut stack = vec![in alloc; first]?;
    loop {
        match one_round(alloc, arena, left, env, stack)? {
            Round::Answered(answer) => return Ok(answer),
            Round::Contracted(fewer, pairs) => {
                left = fewer;
                stack = pairs;
            }
        }
    }
}

/// Compares pairs, the last of them first, until a contraction is made or the answer is known.
#[tactic(auto, using(crate::proofs::Stacking::pairs_pushed))]
fn one_round<'a>(
    alloc: Global,
    arena: &'a Bump,
    n: u64,
    env: &'a Globals,
    mut stack: Vec<Pair<'a>>,
) -> Result<Round<'a>, MemoryError>
    requires { PairsReady (env_of env.now) stack.items }
    ensures { IfOk result (λ r. RoundTo (env_of env.now) n (pairs stack.entry.items) r) }
{
    while let Some(pair) = stack.pop() {
        match pair_taken(alloc, arena, n, env, stack, pair)? {
            Round::Answered(answer) => return Ok(Round::Answered(answer)),
            Round::Contracted(fewer, pairs) => {
                if fewer < n {
                    return Ok(Round::Contracted(fewer, pairs));
                }
                stack = pairs;
            }
        }
    }
    Ok(Round::Answered(Answer::Equal))
}

/// Compares one pair; its components join the others.
fn pair_taken<'a>(
    alloc: Global,
    arena: &'a Bump,
    n: u64,
    env: &'a Globals,
    stack: Vec<Pair<'a>>,
    pair: Pair<'a>,
) -> Result<Round<'a>, MemoryError>
    requires stack { PairsReady (env_of env.now) stack.items }
    requires left { IsReady (env_of env.now) pair.left }
    requires right { IsReady (env_of env.now) pair.right }
    ensures { IfOk result (λ r. TakesTo (env_of env.now) n (item_of pair.entry ∷ pairs
        stack.entry.items) r) }
{
    let Pair { route, left, right } = pair;
    match compared_pair(alloc, arena, n, env, left, right)? {
        Outcome::Same => Ok(Round::Contracted(n, stack)),
        Outcome::Differs => Ok(Round::Answered(Answer::Different(route.path(alloc)?))),
        Outcome::Spent => Ok(Round::Answered(Answer::Spent)),
        Outcome::Splits(made, lefts, rights) => {
            let mut stack = stack;
            push_pairs(&mut stack, placed(arena, route)?, lefts, rights)?;
            Ok(Round::Contracted(n - made, stack))
        }
    }
}

/// Pushes the pairs of components, the last one first. A number of 2^32 or more wants memory.
fn push_pairs<'a>(
    stack: &mut Vec<Pair<'a>>,
    route: &'a Route<'a>,
    mut lefts: Vec<Node<'a>>,
    mut rights: Vec<Node<'a>>,
) -> Result<(), MemoryError>
    requires { vec_len lefts ≡ vec_len rights }
    ensures pushed { OnOk result (pairs stack.new.items ≡ beside (path_of route.now) 0
        (side_by_side (nodes lefts.entry.items)) (side_by_side (nodes rights.entry.items)) ++ pairs
        stack.old.items) }
    ensures ready { (E : Env) → PairsReady E stack.old.items → AreReady E lefts.entry.items →
        AreReady E rights.entry.items → OnOk result (PairsReady E stack.new.items) }
{
    while let Some(left) = lefts.pop() {
        let right = rights.pop().unwrap();
        let Ok(number) = u32::try_from(lefts.len()) else {
            return Err(MemoryError);
        };
        stack.push(Pair {
            route: Route::Below(number, route),
            left,
            right,
        })?;
    }
    Ok(())
}
