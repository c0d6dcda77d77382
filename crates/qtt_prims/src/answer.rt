//! What the primitives answer.

ghost use Rattle.std.specs.Prelude.{◌≡◌, ◌∷◌, [], IfOk, OnErr};
ghost use Rattle.qtt_prims.specs.Apply.{apply, AnswersText};
ghost use Rattle.qtt_prims.specs.declared.lit.Lit.TheVariants as lit;

use crate::lit::{Lit, Text};
use crate::prim::Primitive;
use std::alloc::{AllocError, Global};
use thiserror::Error;

/// What a primitive answers on a list of literals.
#[derive(Debug, Drop, PartialEq, Eq)]
pub enum PrimAnswer {
    Value(Lit),
    Truth(bool),
    /// The second number of a division or of a remainder is 0.
    DivisionByZero,
    /// The literals' number or kinds are not those that the primitive takes.
    IllTyped,
}

#[derive(Clone, Copy, Debug, PartialEq, Eq, Error)]
pub enum PrimError {
    #[error("out of memory")]
    Memory,
}

impl From<AllocError> for PrimError {
    fn from(_error: AllocError) -> PrimError {
        PrimError::Memory
    }
}

/// Applies a primitive to literals. Only an answer that is a text takes memory.
pub fn apply(alloc: Global, prim: Primitive, args: &[Lit]) -> Result<PrimAnswer, PrimError>
    ensures ok { IfOk result (λ answer. answer ≡ apply prim args.now) }
    ensures memory { OnErr result (AnswersText (apply prim args.now)) }
{
    match args {
        [Lit::Int(x), Lit::Int(y)] => Ok(of_numbers(prim, *x, *y)),
        [Lit::Text(s), Lit::Text(t)] => of_texts(alloc, prim, s, t),
        [Lit::Int(x)] => of_number(alloc, prim, *x),
        _ => Ok(PrimAnswer::IllTyped),
    }
}

fn of_numbers(prim: Primitive, x: i64, y: i64) -> PrimAnswer
    ensures { result ≡ apply prim (lit.Int x ∷ lit.Int y ∷ []) }
{
    match prim {
        Primitive::AddInt => PrimAnswer::Value(Lit::Int(x.wrapping_add(y))),
        Primitive::SubInt => PrimAnswer::Value(Lit::Int(x.wrapping_sub(y))),
        Primitive::MulInt => PrimAnswer::Value(Lit::Int(x.wrapping_mul(y))),
        Primitive::DivInt if y == 0 => PrimAnswer::DivisionByZero,
        Primitive::DivInt => PrimAnswer::Value(Lit::Int(x.wrapping_div(y))),
        Primitive::ModInt if y == 0 => PrimAnswer::DivisionByZero,
        Primitive::ModInt => PrimAnswer::Value(Lit::Int(x.wrapping_rem(y))),
        Primitive::EqInt => PrimAnswer::Truth(x == y),
        Primitive::LtInt => PrimAnswer::Truth(x < y),
        Primitive::AppendString | Primitive::EqString | Primitive::ShowInt => PrimAnswer::IllTyped,
    }
}

fn of_texts(alloc: Global, prim: Primitive, s: &Text, t: &Text) -> Result<PrimAnswer, PrimError>
    ensures ok { IfOk result (λ answer. answer ≡ apply prim
        (lit.Text s.now ∷ lit.Text t.now ∷ [])) }
    ensures memory { OnErr result
        (AnswersText (apply prim (lit.Text s.now ∷ lit.Text t.now ∷ []))) }
{
    match prim {
        Primitive::AppendString => {
            let mut joined = String::from_str(alloc, s.as_str())?;
            joined.push_str(t.as_str())?;
            Ok(PrimAnswer::Value(Lit::Text(Text::new(joined))))
        }
        Primitive::EqString => Ok(PrimAnswer::Truth(s.as_str() == t.as_str())),
        _ => Ok(PrimAnswer::IllTyped),
    }
}

fn of_number(alloc: Global, prim: Primitive, x: i64) -> Result<PrimAnswer, PrimError>
    ensures ok { IfOk result (λ answer. answer ≡ apply prim (lit.Int x ∷ [])) }
    ensures memory { OnErr result (AnswersText (apply prim (lit.Int x ∷ []))) }
{
    match prim {
        Primitive::ShowInt => Ok(PrimAnswer::Value(Lit::Text(Text::new(x.to_string(alloc)?)))),
        _ => Ok(PrimAnswer::IllTyped),
    }
}

#[cfg(test)]
mod tests;
