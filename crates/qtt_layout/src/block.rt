//! The blocks that are open.

ghost use Rattle.std.specs.Prelude.{◌≡◌, ◌≤◌, length};
ghost use Rattle.qtt_layout.specs.Rules.{right_of, since_bracket};

/// An open block: its column, and how many brackets were open where it began.
#[derive(Clone, Copy, Debug, PartialEq, Eq)]
pub struct Block {
    pub col: u32,
    pub brackets: usize,
}

/// How many of the newest blocks stand right of a column.
pub fn right_of(col: u32, blocks: &[Block]) -> usize
    ensures value { result ≡ right_of col blocks.now }
    ensures within { result ≤ length blocks.now }
{
    let mut kept = blocks.len();
    while kept > 0 && col < blocks[kept - 1].col {
        kept -= 1;
    }
    blocks.len() - kept
}

/// How many of the newest blocks were opened since the newest of so many brackets.
pub fn since_bracket(brackets: usize, blocks: &[Block]) -> usize
    ensures value { result ≡ since_bracket brackets blocks.now }
    ensures within { result ≤ length blocks.now }
{
    if brackets == 0 {
        return 0;
    }
    let mut kept = blocks.len();
    while kept > 0 && brackets <= blocks[kept - 1].brackets {
        kept -= 1;
    }
    blocks.len() - kept
}
