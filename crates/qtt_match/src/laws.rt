//! Laws of first matches. The function does nothing: its contract is the law.

ghost use Rattle.qtt_match.specs.Laws.{FirstMatchIsLeast};

/// The first match, as it is computed, is the least clause all of whose patterns fit; there is
/// none exactly where no clause fits.
pub fn first_match_is_least()
    ensures { FirstMatchIsLeast }
{}
