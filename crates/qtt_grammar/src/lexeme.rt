//! Marks and tokens as the grammar sees them.

ghost use Rattle.std.specs.Prelude.{◌≡◌, nat_lt, length, codes, IfOk};
ghost use Rattle.qtt_base.specs.Limits.{standard, limit_of};
ghost use Rattle.qtt_syntax.specs.View.{tree_of};
ghost use Rattle.qtt_grammar.specs.Limits.{number_of, excess_of};
ghost use Rattle.qtt_grammar.specs.Grammar.{local_of, named_of, word_of};

use crate::class::{Class, Pass};
use crate::count::one_above;
use crate::stop::Excess;
use qtt_base::{Limits, MemoryError, Name, Quantity, Span};
use qtt_lexer::Bytes;
use qtt_syntax::{Expr, Local, Named, Target};
use std::alloc::Global;

/// A mark or a token; `Type` with the number that it takes is one.
#[derive(Debug, Drop)]
pub struct Lexeme {
    pub class: Class,
    pub place: Span,
    /// The name, which is empty where it is none.
    pub name: Name,
    /// The bytes of a text's value.
    pub text: Bytes,
    pub number: i64,
    /// Where the number stands, for `Type`.
    pub number_place: Span,
    /// The word that stands for it where it is refused.
    pub found: Bytes,
}

impl Lexeme {
    /// The name that is bound here, with its place.
    pub fn local(&self) -> Result<Local, MemoryError>
        ensures { IfOk result (λ name. name ≡ local_of self.now) }
    {
        Ok(Local {
            name: self.name.copy()?,
            span: self.place,
        })
    }

    /// The name that is used here, which is not yet looked up.
    pub fn named(&self) -> Result<Named, MemoryError>
        ensures { IfOk result (λ name. name ≡ named_of self.now) }
    {
        Ok(Named {
            path: self.name.copy()?,
            target: Target::Unknown,
            span: self.place,
        })
    }

    /// What is above a limit at this word.
    pub fn excess(&self, pass: Pass) -> Option<Excess>
        ensures { result ≡ excess_of pass self.now }
    {
        match self.class {
            Class::Text if pass.counts() && is_long(self.text.as_slice()) => {
                Some(one_above(Quantity::LiteralBytes, self.place))
            }
            Class::Universe if pass.counts() && is_high(natural(self.number)) => Some(Excess {
                quantity: Quantity::TypeNumber,
                count: natural(self.number),
                place: self.number_place,
            }),
            _ => None,
        }
    }

    /// The atom that is this word.
    pub fn word(&self, alloc: Global) -> Result<Expr, MemoryError>
        ensures { IfOk result (λ t. tree_of t ≡ word_of self.now.class self.now) }
    {
        Ok(match self.class {
            Class::Text => Expr::Text {
                value: Vec::from_slice(alloc, self.text.as_slice())?,
                span: self.place,
            },
            Class::Universe => Expr::Type {
                level: natural(self.number),
                level_span: self.number_place,
                span: self.place,
            },
            _ => Expr::Number {
                value: self.number,
                span: self.place,
            },
        })
    }
}

// A number, or 0 where it is negative.
fn natural(number: i64) -> u64
    ensures { result ≡ number_of number }
{
    if number < 0 { 0 } else { number as u64 }
}

fn is_long(text: &[u8]) -> bool
    ensures { result ≡ nat_lt (limit_of standard Quantity.LiteralBytes) (length text.now) }
{
    Limits::standard().literal_bytes < text.len() as u64
}

fn is_high(number: u64) -> bool
    ensures { result ≡ nat_lt (limit_of standard Quantity.TypeNumber) number }
{
    Limits::standard().type_number < number
}

/// The name of what binds none.
pub fn unnamed(alloc: Global) -> Result<Name, MemoryError>
    ensures { IfOk result (λ name. name ≡ codes "_") }
{
    Name::new(alloc, "_").map_err(|_| MemoryError)
}
