//! A nesting level.

ghost use Rattle.std.specs.Prelude.{◌≡◌, ◌-◌, ◌<◌, ◌≤◌};
ghost use Rattle.qtt_syntax.specs.View.{tree_of};
ghost use Rattle.qtt_grammar.specs.View.{Answers, below, MayReadBelow, ReadsBelow};

use crate::class::Pass;
use crate::token::{Reading, Rest};
use qtt_syntax::Expr;
use std::alloc::Global;

/// Where a form is read: inside it so many levels may open.
#[derive(Clone, Copy)]
pub struct Level {
    pub alloc: Global,
    pub pass: Pass,
    pub left: u32,
}

impl Level {
    /// A level inside, or this one.
    pub fn at(self, left: u32) -> Level
        requires { left ≤ self.left }
        ensures { result ≡ record self { left = left } }
    {
        Level { left, ..self }
    }

    /// The level inside.
    pub fn below(self) -> Level
        requires { 0 < self.left }
        ensures { result ≡ record self { left = self.left - 1 } }
    {
        Level {
            left: self.left - 1,
            ..self
        }
    }
}

/// An expression of the level inside.
#[tactic(auto, using(crate::proofs::Below::below_is))]
pub fn inner<'a, E: Fn(u32, bool, Rest<'a>) -> Reading<'a, Expr>>(
    level: Level,
    read: &E,
    tail: bool,
    ahead: Rest<'a>,
) -> Reading<'a, Expr>
    requires may { 0 < level.left }
    requires callable { MayReadBelow level.left (E.pre read.now) }
    requires reads { ReadsBelow level.pass level.left (E.post read.now) }
    ensures { Answers tree_of result ((below level.pass level.left).expr tail ahead.now) }
{
    read(level.left - 1, tail, ahead)
}
