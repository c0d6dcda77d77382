//! Laws of filling. Each function does nothing: its contract is the law.

ghost use Rattle.qtt_implicit.specs.Laws.{FilledIsForgotten, FilledWithItself, FilledIsWithinLimit};

/// What is filled is forgotten back to the text, where the text is as texts are written: nothing
/// in it was inserted, each application has arguments, and those in braces stand in front. Each
/// imported signature has the binders that it counts.
pub fn filled_is_forgotten()
    ensures { FilledIsForgotten }
{}

/// A text is filled with itself where nothing in it is in braces, no name in it has a binder in
/// braces in what is imported, and no item of it has too many nodes.
pub fn filled_with_itself()
    ensures { FilledWithItself }
{}

/// An item of a filled text has at most as many nodes as the limit says.
pub fn filled_is_within_limit()
    ensures { FilledIsWithinLimit }
{}
