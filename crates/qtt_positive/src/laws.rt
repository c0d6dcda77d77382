//! Laws of strict positivity. The function does nothing: its contract is the law.

ghost use Rattle.qtt_positive.specs.Laws.{FirstBadIsFirst};

/// The first bad field, as it is computed, is the first whose type is not good; there is none
/// exactly where the family is strictly positive.
pub fn first_bad_is_first()
    ensures { FirstBadIsFirst }
{}
