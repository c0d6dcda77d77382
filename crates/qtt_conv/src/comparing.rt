//! Comparisons: pairs of terms one after the other, under one count.

ghost use Rattle.std.specs.Prelude.{◌≡◌, ◌∷◌, ◌++◌, vec_len, IfOk, OnOk};
ghost use Rattle.qtt_term.specs.Globals.{env as env_of};
ghost use Rattle.qtt_term.specs.Answers.{answer as answer_of};
ghost use Rattle.qtt_term.specs.Question.{compare as compare_within, beside};
ghost use Rattle.qtt_term.specs.View.{term, terms, side_by_side};
ghost use Rattle.qtt_conv.specs.Stacks.{item_of, pairs, RoundTo, TakesTo};

use crate::pair::{Outcome, compared_pair};
use qtt_base::MemoryError;
use qtt_term::{Answer, Globals, Path, Term};
use std::alloc::Global;

/// Two terms that are still to be compared, and their place.
#[derive(Drop)]
pub struct Pair {
    path: Path,
    left: Term,
    right: Term,
}

/// How far a comparison came: to its answer, or to a contraction, after which so many may be
/// made for the pairs that are left.
#[derive(Drop)]
pub enum Round {
    Answered(Answer),
    Contracted(u64, Vec<Pair>),
}

/// Compares two terms within `n` contractions.
pub fn compared(
    alloc: Global,
    n: u64,
    env: &Globals,
    t: &Term,
    u: &Term,
) -> Result<Answer, MemoryError>
    ensures { IfOk result (λ a. answer_of a ≡ compare_within (env_of env.now) n (term t.now)
        (term u.now)) }
{
    let first = Pair {
        path: Vec::new(alloc),
        left: t.copy(alloc)?,
        right: u.copy(alloc)?,
    };
    let mut left = n;
    let mut stack = vec![in alloc; first]?;
    loop {
        match one_round(alloc, left, env, stack)? {
            Round::Answered(answer) => return Ok(answer),
            Round::Contracted(fewer, pairs) => {
                left = fewer;
                stack = pairs;
            }
        }
    }
}

/// Compares pairs, the last of them first, until a contraction is made or the answer is known.
#[tactic(auto, using(crate::proofs::Stacking::pairs_pushed))]
fn one_round(
    alloc: Global,
    n: u64,
    env: &Globals,
    mut stack: Vec<Pair>,
) -> Result<Round, MemoryError>
    ensures { IfOk result (λ r. RoundTo (env_of env.now) n (pairs stack.items) r) }
{
    while let Some(pair) = stack.pop() {
        match pair_taken(alloc, n, env, stack, pair)? {
            Round::Answered(answer) => return Ok(Round::Answered(answer)),
            Round::Contracted(fewer, pairs) => {
                if fewer < n {
                    return Ok(Round::Contracted(fewer, pairs));
                }
                stack = pairs;
            }
        }
    }
    Ok(Round::Answered(Answer::Equal))
}

/// Compares one pair; its components join the others.
fn pair_taken(
    alloc: Global,
    n: u64,
    env: &Globals,
    stack: Vec<Pair>,
    pair: Pair,
) -> Result<Round, MemoryError>
    ensures { IfOk result (λ r. TakesTo (env_of env.now) n (item_of pair ∷ pairs stack.items) r) }
{
    let Pair { path, left, right } = pair;
    match compared_pair(alloc, n, env, &left, &right)? {
        Outcome::Same => Ok(Round::Contracted(n, stack)),
        Outcome::Differs => Ok(Round::Answered(Answer::Different(path))),
        Outcome::Spent => Ok(Round::Answered(Answer::Spent)),
        Outcome::Splits(made, lefts, rights) => {
            let mut stack = stack;
            push_pairs(alloc, &mut stack, &path, lefts, rights)?;
            Ok(Round::Contracted(n - made, stack))
        }
    }
}

/// Pushes the pairs of components, the last one first. A number of 2^32 or more wants memory.
fn push_pairs(
    alloc: Global,
    stack: &mut Vec<Pair>,
    path: &[u32],
    mut lefts: Vec<Term>,
    mut rights: Vec<Term>,
) -> Result<(), MemoryError>
    requires { vec_len lefts ≡ vec_len rights }
    ensures { OnOk result (pairs stack.new.items ≡ beside path.now 0
        (side_by_side (terms lefts.items)) (side_by_side (terms rights.items)) ++ pairs
        stack.old.items) }
{
    while let Some(left) = lefts.pop() {
        let right = rights.pop().unwrap();
        let Ok(number) = u32::try_from(lefts.len()) else {
            return Err(MemoryError);
        };
        let mut place = Vec::with_capacity(alloc, path.len() + 1)?;
        place.extend_from_slice(path)?;
        place.push(number)?;
        stack.push(Pair {
            path: place,
            left,
            right,
        })?;
    }
    Ok(())
}
