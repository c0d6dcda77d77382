//! What the free local names of a tree stand for.

use crate::filling::trees::Node;
use crate::filling::weights::Weight;

/// What a free local name stands for beyond the slots.
#[derive(Clone, Copy)]
pub enum Rest {
    /// Nothing is known of it.
    Unknown,
    /// Itself, behind so many binders more.
    Outer(u32),
}

/// A tree whose free local names stand for what fills slots, behind so many binders more.
#[cycle(slots)]
#[derive(Clone, Copy)]
pub struct Shared<'a> {
    pub tree: &'a Node<'a>,
    pub slots: &'a Slots<'a>,
    pub rest: Rest,
    pub moved: u32,
}

/// Slots, the newest first.
#[cycle(slots)]
#[derive(Clone, Copy)]
pub enum Slots<'a> {
    End,
    Empty(&'a Slots<'a>),
    Filled {
        text: Shared<'a>,
        weight: Weight,
        older: &'a Slots<'a>,
    },
}
