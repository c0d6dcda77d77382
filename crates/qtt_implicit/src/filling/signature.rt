//! Signatures, and what is applied.

use crate::filling::parts::Givens;
use crate::filling::trees::{Node, Used};
use qtt_base::Span;

/// The signature of an item, its type in an arena.
#[derive(Clone, Copy)]
pub struct Signature<'a> {
    pub braces: u32,
    pub params: u32,
    pub ty: &'a Node<'a>,
}

/// A used name with its arguments, and the place of the application.
#[derive(Clone, Copy)]
pub struct Call<'a> {
    pub name: Used<'a>,
    pub givens: &'a Givens<'a>,
    pub span: Span,
}
