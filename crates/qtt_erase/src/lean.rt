//! The forms of erased terms.

use qtt_base::GlobalId;
use qtt_prims::{ActKind, Lit, Primitive};

/// An erased term. Variables are de Bruijn indices.
#[derive(Debug)]
#[cycle(lean)]
pub enum Lean {
    Var(u32),
    /// A function, under its argument.
    Fun(Box<Lean>),
    /// A function without argument.
    Thunk(Box<Lean>),
    App(Box<Lean>, Box<Lean>),
    Force(Box<Lean>),
    Def(GlobalId),
    /// A constructor's place in its family, and the fields that are left.
    Con(u32, Vec<Lean>),
    /// A scrutinee, and a branch for each constructor.
    Case(Box<Lean>, Vec<LeanBranch>),
    Lit(Lit),
    Prim(Primitive, Vec<Lean>),
    Act(ActKind, Vec<Lean>),
    /// A missing clause.
    Trap,
    /// Whatever was a type.
    Ty,
    Tape(u32),
}

// By hand: a value that is given up is then one call for the proof, not a case for each form.
impl Drop for Lean {
    #[cycle(dropped)]
    fn drop(self) {
        match self {
            Lean::Var(_) | Lean::Def(_) | Lean::Tape(_) | Lean::Trap | Lean::Ty => {}
            Lean::Fun(_body) | Lean::Thunk(_body) | Lean::Force(_body) => {}
            Lean::App(_function, _argument) => {}
            Lean::Con(_, _fields) => {}
            Lean::Case(_scrutinee, _branches) => {}
            Lean::Lit(_lit) => {}
            Lean::Prim(_, _arguments) => {}
            Lean::Act(_, _arguments) => {}
        }
    }
}

/// A branch, under the fields that are left of its constructor.
#[derive(Debug, Drop)]
#[cycle(lean)]
pub struct LeanBranch {
    pub fields: u32,
    pub body: Lean,
}
