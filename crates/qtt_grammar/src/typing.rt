//! Types of signatures and constructors.

ghost use Rattle.std.specs.Prelude.{None};
ghost use Rattle.qtt_phrase.specs.Reading.{token_at};
ghost use Rattle.qtt_syntax.specs.View.{tree_of};
ghost use Rattle.qtt_grammar.specs.Classes.{is_zero};
ghost use Rattle.qtt_grammar.specs.Grammar.{of, mult_of};
ghost use Rattle.qtt_grammar.specs.Readers.{levels_at};
ghost use Rattle.qtt_grammar.specs.View.{Answers};

use crate::class::Class;
use crate::expr::expr;
use crate::level::Level;
use crate::token::{Reading, Rest, begins, opener, simple_name, symbol};
use qtt_syntax::{Expr, Mark};
use qtt_usage::mult::Mult;

// A brace binder's mark, which is `0`.
pub fn erased<'a>(ahead: Rest<'a>) -> Reading<'a, Mult>
    ensures { Answers (λ m. m) result
        (token_at (λ _. None) (of is_zero) (λ x. mult_of x.class) ahead.now) }
{
    let (_, rest) = symbol(Class::Zero, ahead)?;
    Ok((Mult::Zero, rest))
}

/// A type with its brace binders.
#[tactic(auto, using(crate::proofs::Below::below_is, crate::proofs::Below::level_is), unfolding(crate::specs::Readers::typing_at, crate::specs::Readers::implicit_at))]
pub fn typing<'a>(level: Level, ahead: Rest<'a>) -> Reading<'a, Expr>
    ensures { Answers tree_of result ((levels_at level.pass level.left).typing ahead.now) }
{
    if !begins(Class::LeftBrace, ahead) {
        return expr(level, false, ahead);
    }
    let (span, rest) = opener(Class::LeftBrace, level.left, ahead)?;
    let (mult, rest) = erased(rest)?;
    let (name, rest) = simple_name(rest)?;
    let (_, rest) = symbol(Class::Colon, rest)?;
    let (domain, rest) = expr(level.below(), false, rest)?;
    let (_, rest) = symbol(Class::RightBrace, rest)?;
    let (_, rest) = opener(Class::Arrow, level.left, rest)?;
    let (codomain, rest) = typing(level.below(), rest)?;
    Ok((
        Expr::Pi {
            mark: Mark::Braced,
            mult,
            name: name.name,
            domain: Box::new(level.alloc, domain)?,
            codomain: Box::new(level.alloc, codomain)?,
            span,
        },
        rest,
    ))
}
