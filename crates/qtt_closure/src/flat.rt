//! Closure-converted terms, and the functions that they name by number.

use qtt_base::GlobalId;
use qtt_prims::{ActKind, Lit, Primitive};

/// A term of a function's body. Variables are de Bruijn indices into what the function captured,
/// the outermost first, then its argument, then what is bound in the body.
#[derive(Debug)]
#[cycle(flat)]
pub enum FlatTerm {
    Var(u32),
    /// The number of a function, and the values that it captured, the outermost variable first.
    Closure(u32, Vec<FlatTerm>),
    App(Box<FlatTerm>, Box<FlatTerm>),
    Force(Box<FlatTerm>),
    Def(GlobalId),
    /// A constructor's tag and its fields.
    Con(u32, Vec<FlatTerm>),
    /// A scrutinee, and a branch for each tag.
    Case(Box<FlatTerm>, Vec<FlatBranch>),
    Lit(Lit),
    Prim(Primitive, Vec<FlatTerm>),
    Act(ActKind, Vec<FlatTerm>),
    /// A missing clause.
    Trap,
    /// Whatever was a type.
    Ty,
    Tape(u32),
}

// By hand: a value that is given up is then one call for the proof, not a case for each form.
impl Drop for FlatTerm {
    #[cycle(dropped)]
    fn drop(self) {
        match self {
            FlatTerm::Var(_) | FlatTerm::Def(_) | FlatTerm::Tape(_) => {}
            FlatTerm::Trap | FlatTerm::Ty => {}
            FlatTerm::Closure(_, _captured) => {}
            FlatTerm::App(_function, _argument) => {}
            FlatTerm::Force(_body) => {}
            FlatTerm::Con(_, _fields) => {}
            FlatTerm::Case(_scrutinee, _branches) => {}
            FlatTerm::Lit(_lit) => {}
            FlatTerm::Prim(_, _arguments) => {}
            FlatTerm::Act(_, _arguments) => {}
        }
    }
}

/// A branch, under the fields of its constructor.
#[derive(Debug, Drop)]
#[cycle(flat)]
pub struct FlatBranch {
    pub fields: u32,
    pub body: FlatTerm,
}

/// A function: how many variables it captures, how many arguments it takes, 1 or 0, and its body
/// under all of these.
#[derive(Debug, Drop)]
pub struct Function {
    pub captured: u32,
    pub takes: u32,
    pub body: FlatTerm,
}

/// The functions of a term in the order of their numbers. The first is the term's own: it
/// captures and takes nothing.
#[derive(Debug, Drop)]
pub struct Flat {
    pub functions: Vec<Function>,
}
