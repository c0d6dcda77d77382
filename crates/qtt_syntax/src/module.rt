//! A module and its items. Each `span`, and `header`, is that of the form's first token.

use crate::expr::Expr;
use crate::pattern::Pattern;
use qtt_base::{Name, Span};
use qtt_usage::mult::Mult;

#[derive(Debug, Drop)]
pub struct ModuleText {
    pub header: Span,
    pub name: Name,
    pub name_span: Span,
    pub imports: Vec<Import>,
    pub items: Vec<Item>,
}

#[derive(Debug, Drop)]
pub struct Import {
    pub name: Name,
    pub span: Span,
}

#[derive(Debug, Drop)]
pub enum Item {
    Family(FamilyDecl),
    Signature(SignatureDecl),
    Clause(Clause),
}

/// `data name params : ty where constructors`
#[derive(Debug, Drop)]
pub struct FamilyDecl {
    pub name: Name,
    pub name_span: Span,
    pub params: Vec<Param>,
    pub ty: Expr,
    pub constructors: Vec<ConDecl>,
    pub span: Span,
}

/// A parameter of a family.
#[derive(Debug, Drop)]
pub struct Param {
    pub mult: Mult,
    pub name: Name,
    pub ty: Expr,
    pub span: Span,
}

/// A constructor, whose brace binders are the first ones of its type.
#[derive(Debug, Drop)]
pub struct ConDecl {
    pub name: Name,
    pub ty: Expr,
    pub span: Span,
}

/// A signature, whose brace binders are the first ones of its type.
#[derive(Debug, Drop)]
pub struct SignatureDecl {
    pub partial: bool,
    pub mult: Mult,
    pub name: Name,
    pub name_span: Span,
    pub ty: Expr,
    pub span: Span,
}

/// `name patterns = side`
#[derive(Debug, Drop)]
pub struct Clause {
    pub name: Name,
    pub patterns: Vec<Pattern>,
    pub side: Expr,
    pub span: Span,
}
