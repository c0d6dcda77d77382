//! Parts of a walk: arguments, local names, and what is walked.

use crate::filling::text_type::TextType;
use crate::filling::trees::{Arguments, Node};
use qtt_base::Span;
use qtt_syntax::Mark;

/// An application that a text type is.
#[derive(Clone, Copy)]
pub struct Application<'a> {
    pub function: TextType<'a>,
    /// They stand where the function stands.
    pub arguments: &'a Arguments<'a>,
    pub span: Span,
}

/// An argument, as it was walked, and its text type.
#[derive(Clone, Copy)]
pub struct Given<'a> {
    pub mark: Mark,
    pub tree: &'a Node<'a>,
    pub ty: TextType<'a>,
}

/// Arguments, as they were walked.
#[derive(Clone, Copy)]
pub enum Givens<'a> {
    End,
    More {
        given: Given<'a>,
        others: &'a Givens<'a>,
    },
}

/// The text types of the local names, the newest first.
#[derive(Clone, Copy)]
pub enum Locals<'a> {
    End,
    /// A binder of this type, which stands behind the older ones.
    Behind {
        ty: TextType<'a>,
        older: &'a Locals<'a>,
    },
    /// A variable of a clause, of a type that stands behind all of them.
    Beside {
        ty: TextType<'a>,
        older: &'a Locals<'a>,
    },
    /// So many variables of a clause whose patterns stand further right.
    Unmet {
        count: u32,
        older: &'a Locals<'a>,
    },
}

/// An expression with what is filled in, and its text type.
#[derive(Clone, Copy)]
pub struct Walked<'a> {
    pub tree: &'a Node<'a>,
    pub ty: TextType<'a>,
}
