//! The number of constructor patterns, which bounds the splits of a tree.

ghost use Rattle.std.specs.Prelude.{◌≡◌, IfOk, map};
ghost use Rattle.qtt_split.specs.Calls.{clause_of};
ghost use Rattle.qtt_split.specs.Node.{constructors_in as count_in, constructors_of as count_of, all_constructors as count_of_all};
ghost use Rattle.qtt_syntax.specs.View.{shape_of};

use crate::substitution::sum;
use qtt_base::MemoryError;
use qtt_syntax::{Clause, Pattern};

/// The constructor patterns in one pattern.
#[cycle(constructors)]
#[tactic(auto, using(crate::proofs::Numbered::numbering))]
fn constructors_in(pattern: &Pattern) -> Result<u32, MemoryError>
    ensures { IfOk result (λ n. n ≡ count_in (shape_of pattern.now)) }
{
    match pattern {
        Pattern::Constructor { arguments, .. } => Ok(sum(1, constructors_of(arguments)?)?),
        Pattern::Variable { .. } | Pattern::Wildcard { .. } | Pattern::Dot { .. } => Ok(0),
    }
}

/// The constructor patterns in patterns side by side.
#[cycle(constructors)]
#[tactic(auto, using(crate::proofs::Numbered::numbering))]
fn constructors_of(patterns: &[Pattern]) -> Result<u32, MemoryError>
    ensures { IfOk result (λ n. n ≡ count_of (map shape_of patterns.now)) }
{
    let mut count = 0;
    for pattern in patterns {
        count = sum(count, constructors_in(pattern)?)?;
    }
    Ok(count)
}

/// The constructor patterns in clauses.
#[tactic(auto, using(crate::proofs::Numbered::numbering))]
pub fn all_constructors(clauses: &[Clause]) -> Result<u32, MemoryError>
    ensures { IfOk result (λ n. n ≡ count_of_all (map clause_of clauses.now)) }
{
    let mut count = 0;
    for clause in clauses {
        count = sum(count, constructors_of(&clause.patterns)?)?;
    }
    Ok(count)
}
