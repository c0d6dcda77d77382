//! Case trees.

use qtt_base::{GlobalId, Name, Span};
use qtt_syntax::Pattern;
use qtt_term::{Ctx, Term};
use qtt_usage::mult::Mult;

/// Where the use of a variable is told: the name and the place of its pattern.
#[derive(Debug, Drop)]
pub struct Report {
    pub variable: u32,
    pub name: Option<Name>,
    pub place: Span,
}

/// A clause that decides, by its number from 0. Its right side is judged against the goal in this
/// context, whose names are the clause's pattern variables in the order of the text.
#[derive(Debug, Drop)]
pub struct Leaf {
    pub clause: u32,
    pub ctx: Ctx,
    /// What the expression of each dot pattern is to be, and its type.
    pub dots: Vec<(Term, Term)>,
    pub goal: Term,
    pub reported: Vec<Report>,
}

/// What a match splits: a variable at a multiplicity, whose type is the family at these parameters
/// and so many indices. The motive stands under the indices and the scrutinee, and each branch
/// binds the reverted variables again.
#[derive(Debug, Drop)]
pub struct Splitting {
    pub variable: u32,
    pub mult: Mult,
    pub family: GlobalId,
    pub params: Vec<Term>,
    pub indices: u32,
    pub motive: Term,
    pub reverted: Vec<(Mult, u32)>,
}

/// A variable that is a proof that the point equals itself. The motive stands under the proof, and
/// the branch binds the reverted variables again.
#[derive(Debug, Drop)]
pub struct Deleting {
    pub variable: u32,
    pub mult: Mult,
    pub ty: Term,
    pub point: Term,
    pub motive: Term,
    pub reverted: Vec<(Mult, u32)>,
}

/// The case tree of a definition by clauses.
#[derive(Debug, Drop)]
#[cycle(tree)]
pub enum Tree {
    Leaf(Leaf),
    Split(Splitting, Vec<Branch>),
    /// The binders of the reverted variables, and the tree under them.
    Delete(Deleting, Vec<(Mult, Term)>, Box<Tree>),
    /// A constructor that an index equation excludes: a trap of this type.
    Absurd(Term),
    /// No clause is left: a trap of the goal, and the patterns that lead here.
    Missing { goal: Term, patterns: Vec<Pattern> },
}

/// The branch of one constructor: the number of its fields, the binders of the reverted variables,
/// and the tree under all of these.
#[derive(Debug, Drop)]
#[cycle(tree)]
pub struct Branch {
    pub fields: u32,
    pub again: Vec<(Mult, Term)>,
    pub tree: Tree,
}
