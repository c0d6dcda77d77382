//! What a copy of a tree is made with, and what is found at a slot.

use crate::filling::slots::{Rest, Shared, Slots};
use bumpalo::Bump;
use qtt_base::Span;

/// Copies of trees, whose free local names stand for what fills slots, behind so many binders
/// more, each place at the same one if it is given.
#[derive(Clone, Copy)]
pub struct Copying<'a> {
    pub arena: &'a Bump,
    pub slots: &'a Slots<'a>,
    pub rest: Rest,
    pub moved: u32,
    pub place: Option<Span>,
}

/// What is found at a slot.
#[derive(Clone, Copy)]
pub enum Found<'a> {
    Text(Shared<'a>),
    Empty,
    /// The name with this number beyond the slots.
    Beyond(u32),
}
