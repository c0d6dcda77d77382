//! The patterns that lead to a node.

ghost use Rattle.std.specs.Prelude.{◌≡◌, false, IfOk, map};
ghost use Rattle.qtt_base.specs.Parts.{has_long_part};
ghost use Rattle.qtt_syntax.specs.View.{shape_of};
ghost use Rattle.qtt_term.specs.Entries.{entries};
ghost use Rattle.qtt_split.specs.Constructors.{bare as unqualified};
ghost use Rattle.qtt_split.specs.Seen.{pattern_of as pattern_leading, pattern_list as patterns_leading};
ghost use Rattle.qtt_split.specs.Sights.{seen_of, sights_of};

use crate::planner::constructor_of;
use crate::sights::Seen;
use qtt_base::{MemoryError, Name, NameError, Span};
use qtt_syntax::{Mark, Named, Pattern, Target};
use qtt_term::{Constructor, Globals};
use std::alloc::Global;

/// What stands behind the last dot.
fn last_part(text: &str) -> &str
    ensures value { result.now ≡ unqualified text.now }
    ensures short { has_long_part text.now ≡ false → has_long_part result.now ≡ false }
{
    match text.rsplit_once('.') {
        Some((_, last)) => last,
        None => text,
    }
}

/// A name without its module.
fn bare(alloc: Global, name: &Name) -> Result<Name, MemoryError>
    ensures { IfOk result (λ bare. bare ≡ unqualified name.now) }
{
    match Name::new(alloc, last_part(name.as_str())) {
        Ok(bare) => Ok(bare),
        Err(NameError::Memory) => Err(MemoryError),
        Err(NameError::TooLong) => unreachable!(),
    }
}

/// The name of a constructor, at this place.
fn named(alloc: Global, constructor: &Constructor, place: Span) -> Result<Named, MemoryError>
    ensures { IfOk result
        (λ named. named ≡ record {
          path = unqualified constructor.now.name;
          target = Target.Global constructor.now.id;
          span = place;
        }) }
{
    Ok(Named {
        path: bare(alloc, &constructor.name)?,
        target: Target::Global(constructor.id),
        span: place,
    })
}

/// The pattern that leads to what was seen, at this place.
#[cycle(leading)]
fn pattern_of(
    alloc: Global,
    globals: &Globals,
    place: Span,
    seen: &Seen,
) -> Result<Pattern, MemoryError>
    ensures { IfOk result
        (λ p. shape_of p ≡ pattern_leading (entries globals.now) place (seen_of seen.now)) }
{
    if let Seen::MadeOf(con, fields) = seen {
        if let Some(constructor) = constructor_of(globals, *con) {
            return Ok(Pattern::Constructor {
                mark: Mark::Written,
                head: named(alloc, constructor, place)?,
                arguments: pattern_list(alloc, globals, place, fields)?,
                span: place,
            });
        }
    }
    Ok(Pattern::Wildcard {
        mark: Mark::Written,
        span: place,
    })
}

/// The patterns that lead to what was seen, one for each, at this place.
#[cycle(leading)]
pub fn pattern_list(
    alloc: Global,
    globals: &Globals,
    place: Span,
    seen: &[Seen],
) -> Result<Vec<Pattern>, MemoryError>
    ensures { IfOk result
        (λ ps. map shape_of ps.items ≡ patterns_leading (entries globals.now) place
        (sights_of seen.now)) }
{
    let mut patterns = Vec::with_capacity(alloc, seen.len())?;
    for one in seen {
        patterns.push(pattern_of(alloc, globals, place, one)?)?;
    }
    Ok(patterns)
}
