//! Single lexemes.

ghost use Rattle.std.specs.Prelude.{◌≡◌, ◌<◌, nat_lt, OnOk, None};
ghost use Rattle.qtt_phrase.specs.Reading.{begins, token_at};
ghost use Rattle.qtt_phrase.specs.Reading.Read.{got};
ghost use Rattle.qtt_grammar.specs.Classes.{same, starts_binder, starts_atom, starts_pattern, is_name, is_simple, is_constructor, is_bname, is_word};
ghost use Rattle.qtt_grammar.specs.Grammar.{of, named_of, word_of};
ghost use Rattle.qtt_grammar.specs.Limits.{excess_of};
ghost use Rattle.qtt_syntax.specs.View.{tree_of};
ghost use Rattle.qtt_grammar.specs.Readers.{named_binder, marked_binder, begins_binder, begins_bind, symbol_at, opener_at, local_at, mark_at, zero_at};
ghost use Rattle.qtt_grammar.specs.View.{Gives, Answers, first_place_at};

use crate::class::Class;
use crate::level::Level;
use crate::lexeme::Lexeme;
use crate::stop::{Reason, Stop};
use qtt_base::Span;
use qtt_syntax::{Expr, Local, Named};
use qtt_usage::mult::Mult;

/// Lexemes that are still to be read.
pub type Rest<'a> = &'a [Lexeme];

/// What was read, and the lexemes behind it.
pub type Reading<'a, X> = Result<(X, &'a [Lexeme]), Stop<'a>>;

/// Whether a lexeme of this form comes first.
pub fn begins(class: Class, ahead: Rest<'_>) -> bool
    ensures { result ≡ begins (of (same class)) ahead.now }
{
    match ahead {
        [first, ..] => class.same(first.class),
        [] => false,
    }
}

/// Whether a name comes first.
pub fn begins_name(ahead: Rest<'_>) -> bool
    ensures { result ≡ begins (of is_name) ahead.now }
{
    match ahead {
        [first, ..] => first.class.is_name(),
        [] => false,
    }
}

/// Whether a constructor comes first.
pub fn begins_constructor(ahead: Rest<'_>) -> bool
    ensures { result ≡ begins (of is_constructor) ahead.now }
{
    match ahead {
        [first, ..] => first.class.is_constructor(),
        [] => false,
    }
}

/// Whether a binder of a function begins here.
pub fn begins_binders(ahead: Rest<'_>) -> bool
    ensures { result ≡ begins (of starts_binder) ahead.now }
{
    match ahead {
        [first, ..] => first.class.starts_binder(),
        [] => false,
    }
}

/// Whether an atom begins here.
pub fn begins_atom(ahead: Rest<'_>) -> bool
    ensures { result ≡ begins (of starts_atom) ahead.now }
{
    match ahead {
        [first, ..] => first.class.starts_atom(),
        [] => false,
    }
}

/// Whether a pattern begins here.
pub fn begins_pattern(ahead: Rest<'_>) -> bool
    ensures { result ≡ begins (of starts_pattern) ahead.now }
{
    match ahead {
        [first, ..] => first.class.starts_pattern(),
        [] => false,
    }
}

fn is_named_binder(ahead: Rest<'_>) -> bool
    ensures { result ≡ named_binder ahead.now }
{
    match ahead {
        [first] => Class::Wildcard.same(first.class),
        [first, second, ..] => {
            Class::Wildcard.same(first.class)
                || (first.class.is_simple() && Class::Colon.same(second.class))
        }
        [] => false,
    }
}

fn is_marked_binder(ahead: Rest<'_>) -> bool
    ensures { result ≡ marked_binder ahead.now }
{
    match ahead {
        [first, rest @ ..] if first.class.is_digit() => is_named_binder(rest),
        _ => is_named_binder(ahead),
    }
}

/// Whether a binder in brackets begins here, and no expression.
pub fn begins_binder(ahead: Rest<'_>) -> bool
    ensures { result ≡ begins_binder ahead.now }
{
    match ahead {
        [first, rest @ ..] => Class::LeftParen.same(first.class) && is_marked_binder(rest),
        [] => false,
    }
}

/// Whether a statement begins here that binds a name.
pub fn begins_bind(ahead: Rest<'_>) -> bool
    ensures { result ≡ begins_bind ahead.now }
{
    match ahead {
        [first] => Class::Wildcard.same(first.class),
        [first, second, ..] => {
            Class::Wildcard.same(first.class)
                || (first.class.is_simple() && Class::LeftArrow.same(second.class))
        }
        [] => false,
    }
}

/// A lexeme of this form, for which its place stands.
pub fn symbol<'a>(class: Class, ahead: Rest<'a>) -> Reading<'a, Span>
    ensures { Answers (λ s. s) result (symbol_at (same class) ahead.now) }
{
    match ahead {
        [first, rest @ ..] if class.same(first.class) => Ok((first.place, rest)),
        _ => Err(Stop::Bad(Reason::Unexpected, ahead)),
    }
}

/// A lexeme of this form that opens a nesting level, where so many may open.
pub fn opener<'a>(class: Class, levels: u32, ahead: Rest<'a>) -> Reading<'a, Span>
    ensures gives { Answers (λ s. s) result (opener_at (nat_lt 0 levels) (same class) ahead.now) }
    ensures may { OnOk result (0 < levels) }
{
    match ahead {
        [first, rest @ ..] if class.same(first.class) => {
            if levels > 0 {
                Ok((first.place, rest))
            } else {
                Err(Stop::Bad(Reason::TooDeep, ahead))
            }
        }
        _ => Err(Stop::Bad(Reason::Unexpected, ahead)),
    }
}

/// A name that a binder may bind.
pub fn bound_name<'a>(ahead: Rest<'a>) -> Reading<'a, Local>
    ensures { Answers (λ n. n) result (local_at is_bname ahead.now) }
{
    match ahead {
        [first, rest @ ..] if first.class.is_bname() => Ok((first.local()?, rest)),
        _ => Err(Stop::Bad(Reason::Unexpected, ahead)),
    }
}

/// A name of one part.
pub fn simple_name<'a>(ahead: Rest<'a>) -> Reading<'a, Local>
    ensures { Answers (λ n. n) result (local_at is_simple ahead.now) }
{
    match ahead {
        [first, rest @ ..] if first.class.is_simple() => Ok((first.local()?, rest)),
        _ => Err(Stop::Bad(Reason::Unexpected, ahead)),
    }
}

/// A big name of one part.
pub fn big_name<'a>(ahead: Rest<'a>) -> Reading<'a, Local>
    ensures { Answers (λ n. n) result (local_at (same Class.Big) ahead.now) }
{
    match ahead {
        [first, rest @ ..] if Class::Big.same(first.class) => Ok((first.local()?, rest)),
        _ => Err(Stop::Bad(Reason::Unexpected, ahead)),
    }
}

/// Any name that an item or an import names.
pub fn any_name<'a>(ahead: Rest<'a>) -> Reading<'a, Local>
    ensures { Answers (λ n. n) result (local_at is_name ahead.now) }
{
    match ahead {
        [first, rest @ ..] if first.class.is_name() => Ok((first.local()?, rest)),
        _ => Err(Stop::Bad(Reason::Unexpected, ahead)),
    }
}

/// A used name.
pub fn used_name<'a>(ahead: Rest<'a>) -> Reading<'a, Named>
    ensures { Answers (λ n. n) result (token_at (λ _. None) (of is_name) named_of ahead.now) }
{
    match ahead {
        [first, rest @ ..] if first.class.is_name() => Ok((first.named()?, rest)),
        _ => Err(Stop::Bad(Reason::Unexpected, ahead)),
    }
}

/// A constructor that a pattern names.
pub fn used_constructor<'a>(ahead: Rest<'a>) -> Reading<'a, Named>
    ensures { Answers (λ n. n) result
        (token_at (λ _. None) (of is_constructor) named_of ahead.now) }
{
    match ahead {
        [first, rest @ ..] if first.class.is_constructor() => Ok((first.named()?, rest)),
        _ => Err(Stop::Bad(Reason::Unexpected, ahead)),
    }
}

/// A mark of multiplicity, if there is one.
#[tactic(auto, unfolding(crate::specs::Readers::mark_at))]
pub fn mark<'a>(ahead: Rest<'a>) -> (Mult, Rest<'a>)
    ensures { mark_at ahead.now ≡ got result.0 result.1.now }
{
    match ahead {
        [first, rest @ ..] if first.class.same(Class::Zero) => (Mult::Zero, rest),
        [first, rest @ ..] if first.class.same(Class::One) => (Mult::One, rest),
        _ => (Mult::Many, ahead),
    }
}

/// The mark `0`, if it is there.
#[tactic(auto, unfolding(crate::specs::Readers::zero_at))]
pub fn zero<'a>(ahead: Rest<'a>) -> (Mult, Rest<'a>)
    ensures { zero_at ahead.now ≡ got result.0 result.1.now }
{
    match ahead {
        [first, rest @ ..] if first.class.same(Class::Zero) => (Mult::Zero, rest),
        _ => (Mult::Many, ahead),
    }
}

/// The place of the first lexeme.
pub fn first_place<'a>(ahead: Rest<'a>) -> Result<Span, Stop<'a>>
    ensures { Gives (λ s. got s ahead.now) result (first_place_at ahead.now) }
{
    match ahead {
        [first, ..] => Ok(first.place),
        [] => Err(Stop::Bad(Reason::Unexpected, ahead)),
    }
}

/// An atom that is one word.
pub fn word<'a>(level: Level, ahead: Rest<'a>) -> Reading<'a, Expr>
    ensures { Answers tree_of result
        (token_at (excess_of level.pass) (of is_word) (λ x. word_of x.class x) ahead.now) }
{
    match ahead {
        [first, rest @ ..] if first.class.is_word() => {
            if let Some(excess) = first.excess(level.pass) {
                return Err(Stop::Over(excess, rest));
            }
            Ok((first.word(level.alloc)?, rest))
        }
        _ => Err(Stop::Bad(Reason::Unexpected, ahead)),
    }
}
