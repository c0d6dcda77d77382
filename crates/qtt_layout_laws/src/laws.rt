//! Laws of the layout. Each function does nothing: its contract is the law.

ghost use Rattle.qtt_layout_laws.specs.Laws.{LayoutIsByColumns, LayoutHasOneAnswer, LayoutOpensBlocks};

/// Tokens have exactly the marks with which blocks by columns lay them out, and are refused exactly
/// where a token stands left of the outermost block.
pub fn layout_is_by_columns()
    ensures { LayoutIsByColumns }
{}

/// Blocks by columns lay each text out in one way, or refuse it for one token.
pub fn layout_has_one_answer()
    ensures { LayoutHasOneAnswer }
{}

/// A block opens at the first token, directly behind each `where` and `do`, and nowhere else.
pub fn layout_opens_blocks()
    ensures { LayoutOpensBlocks }
{}
