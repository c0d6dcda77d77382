//! Variables that a term mentions.

ghost use Rattle.std.specs.Prelude.{◌≡◌, IfOk};
ghost use Rattle.qtt_term.specs.Reading.{occurrences as occurrences_of};
ghost use Rattle.qtt_term.specs.View.{term};
ghost use Rattle.qtt_split.specs.Mentions.{is_some};

use crate::occurrences::occurrences;
use qtt_base::MemoryError;
use qtt_term::Term;

/// Whether a variable occurs in a term.
pub fn mentions(source: &Term, variable: u64) -> Result<bool, MemoryError>
    ensures { IfOk result (λ b. b ≡ is_some (occurrences_of variable (term source.now))) }
{
    Ok(occurrences(source, variable)? != 0)
}
