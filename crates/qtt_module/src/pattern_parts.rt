//! What stands in the patterns of a clause, in the order of the text.

ghost use Rattle.std.specs.Prelude.{◌≡◌, ◌++◌, IfOk, map};
ghost use Rattle.qtt_syntax.specs.View.{shape_of};
ghost use Rattle.qtt_split.specs.Group.{dots_in as dots_of_one, dots_of};
ghost use Rattle.qtt_module.specs.Sides.{names_in as names_of_one, names_of};
ghost use Rattle.qtt_module.specs.GroupCalls.{dot_of};

use qtt_base::{MemoryError, Name, Span};
use qtt_syntax::{Expr, Pattern};

/// A dot pattern: its expression and its place.
#[derive(Drop)]
pub struct Dot<'c> {
    pub value: &'c Expr,
    pub span: Span,
}

/// The names of a pattern's variables, behind others.
#[cycle(names)]
#[tactic(auto, using(crate::proofs::PatternParts::parts))]
fn names_in(pattern: &Pattern, before: Vec<Name>) -> Result<Vec<Name>, MemoryError>
    ensures { IfOk result
        (λ names. names.items ≡ before.items ++ names_of_one (shape_of pattern.now)) }
{
    let mut names = before;
    match pattern {
        Pattern::Variable { name, .. } => {
            names.push(name.copy()?)?;
            Ok(names)
        }
        Pattern::Constructor { arguments, .. } => names_among(arguments, names),
        Pattern::Wildcard { .. } | Pattern::Dot { .. } => Ok(names),
    }
}

/// The names of the variables of these patterns, behind others.
#[cycle(names)]
#[tactic(auto, using(crate::proofs::PatternParts::parts))]
pub fn names_among(patterns: &[Pattern], before: Vec<Name>) -> Result<Vec<Name>, MemoryError>
    ensures { IfOk result
        (λ names. names.items ≡ before.items ++ names_of (map shape_of patterns.now)) }
{
    let mut names = before;
    for pattern in patterns {
        names = names_in(pattern, names)?;
    }
    Ok(names)
}

/// The dot patterns of a pattern, behind others.
#[cycle(dots)]
#[tactic(auto, using(crate::proofs::PatternParts::parts))]
fn dots_in<'c>(pattern: &'c Pattern, before: Vec<Dot<'c>>) -> Result<Vec<Dot<'c>>, MemoryError>
    ensures { IfOk result
        (λ dots. map dot_of dots.items ≡ map dot_of before.entry.items ++
        dots_of_one (shape_of pattern.now)) }
{
    let mut dots = before;
    match pattern {
        Pattern::Dot { value, span, .. } => {
            dots.push(Dot { value, span: *span })?;
            Ok(dots)
        }
        Pattern::Constructor { arguments, .. } => dots_among(arguments, dots),
        Pattern::Variable { .. } | Pattern::Wildcard { .. } => Ok(dots),
    }
}

/// The dot patterns among these patterns, behind others.
#[cycle(dots)]
#[tactic(auto, using(crate::proofs::PatternParts::parts))]
pub fn dots_among<'c>(
    patterns: &'c [Pattern],
    before: Vec<Dot<'c>>,
) -> Result<Vec<Dot<'c>>, MemoryError>
    ensures { IfOk result
        (λ dots. map dot_of dots.items ≡ map dot_of before.entry.items ++
        dots_of (map shape_of patterns.now)) }
{
    let mut dots = before;
    for pattern in patterns {
        dots = dots_in(pattern, dots)?;
    }
    Ok(dots)
}
