//! Questions that are asked both ways.

use qtt_conv::BySubst;
use qtt_envconv::ByEnv;
use qtt_term::{Answer, Converter, Globals, Head, Term};
use std::alloc::Global;
use std::test::Fail;

fn same_head(one: &Head, other: &Head) -> bool {
    match (one, other) {
        (Head::Done(t, m), Head::Done(u, n)) => t.same(u) && m == n,
        (Head::Spent, Head::Spent) => true,
        _ => false,
    }
}

pub fn same_answer(one: &Answer, other: &Answer) -> bool {
    match (one, other) {
        (Answer::Equal, Answer::Equal) => true,
        (Answer::Different(path), Answer::Different(place)) => path.as_slice() == place.as_slice(),
        (Answer::Spent, Answer::Spent) => true,
        _ => false,
    }
}

/// The head of a term within `n` contractions, where both ways find the same.
pub fn head_both_ways(alloc: Global, n: u64, env: &Globals, t: &Term) -> Result<Head, Fail> {
    let one = BySubst.head(alloc, n, env, t)?;
    let other = ByEnv.head(alloc, n, env, t)?;
    if same_head(&one, &other) {
        Ok(other)
    } else {
        Err(Fail::from("the heads are not alike"))
    }
}

/// What the comparison of two terms within `n` contractions answers, where both ways answer the
/// same.
pub fn answer_both_ways(
    alloc: Global,
    n: u64,
    env: &Globals,
    t: &Term,
    u: &Term,
) -> Result<Answer, Fail> {
    let one = BySubst.compare(alloc, n, env, t, u)?;
    let other = ByEnv.compare(alloc, n, env, t, u)?;
    if same_answer(&one, &other) {
        Ok(other)
    } else {
        Err(Fail::from("the answers are not alike"))
    }
}
