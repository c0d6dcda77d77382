//! Where a term stands in its block.

/// Whether the block goes on behind a term, or gives the term's value back.
#[derive(Clone, Copy, Debug)]
pub enum Position {
    Inner,
    Tail,
}
