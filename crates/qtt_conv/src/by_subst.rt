//! The first way to answer questions.

use crate::comparing::compared;
use crate::heads::head_within;
use qtt_base::MemoryError;
use qtt_term::{Answer, Converter, Globals, Head, Term};
use std::alloc::Global;

/// Answers by contracting the terms themselves. The machine's stack does not grow with the
/// number of contractions, nor for `head` with how many applications, matches, deletions and
/// primitives stand around the head (measured: a head under 200,000 applications is answered).
/// It grows with how deep terms are nested elsewhere, and for `compare`, which copies, tests and
/// drops whole terms, with how deep they are nested anywhere (measured: applications nested
/// 1,400 deep overflow it in a build with checks).
#[derive(Clone, Copy, Debug)]
pub struct BySubst;

impl Converter for BySubst {
    fn head(&self, alloc: Global, n: u64, env: &Globals, t: &Term) -> Result<Head, MemoryError> {
        head_within(alloc, n, env, t)
    }

    fn compare(
        &self,
        alloc: Global,
        n: u64,
        env: &Globals,
        t: &Term,
        u: &Term,
    ) -> Result<Answer, MemoryError> {
        compared(alloc, n, env, t, u)
    }
}
