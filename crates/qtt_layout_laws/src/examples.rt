//! Worked examples of the definitions. Each function does nothing: its contract is what was worked.

ghost use Rattle.qtt_layout_laws.specs.Examples.{WordsAsWorked, LayoutsAsWorked};

/// What words are for a block.
pub fn words_as_worked()
    ensures { WordsAsWorked }
{}

/// Small texts by blocks.
pub fn layouts_as_worked()
    ensures { LayoutsAsWorked }
{}
