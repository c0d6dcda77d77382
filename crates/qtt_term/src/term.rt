//! The forms of core terms.

ghost use Rattle.std.specs.Prelude.{◌≡◌};
ghost use Rattle.qtt_term.specs.declared.term.TermError.TheVariants.{Memory};

use qtt_base::{GlobalId, MemoryError};
use qtt_prims::{ActKind, Lit, Primitive};
use qtt_usage::mult::Mult;
use std::alloc::{AllocError, AllocFailed, Global};
use std::mem;
use thiserror::Error;

/// Want of memory. An index that would reach 2^31 counts as one.
#[derive(Clone, Copy, Debug, PartialEq, Eq, Error)]
pub enum TermError {
    #[error("out of memory")]
    Memory,
}

impl From<AllocError> for TermError {
    ghost from_gives = { λ _ e. e ≡ Memory };

    fn from(_error: AllocError) -> TermError {
        TermError::Memory
    }
}

impl<T: Drop> From<AllocFailed<T>> for TermError {
    ghost from_gives = { λ _ e. e ≡ Memory };

    fn from(_error: AllocFailed<T>) -> TermError {
        TermError::Memory
    }
}

impl From<TermError> for MemoryError {
    fn from(_error: TermError) -> MemoryError {
        MemoryError
    }
}

/// `IO`, whose results are many, and `IO1`, whose results are at 1.
#[derive(Clone, Copy, Debug, PartialEq, Eq)]
pub enum IoKind {
    Io,
    Io1,
}

/// A constructor: its family, and its place there from 0.
#[derive(Clone, Copy, Debug, PartialEq, Eq)]
pub struct ConId {
    pub family: GlobalId,
    pub place: u32,
}

/// A core term. Variables are de Bruijn indices.
#[derive(Debug)]
#[cycle(term)]
pub enum Term {
    Var(u32),
    Sort(u32),
    Pi(Mult, Box<Term>, Box<Term>),
    Lam(Mult, Box<Term>, Box<Term>),
    App(Mult, Box<Term>, Box<Term>),
    /// A family at its parameters, then its indices.
    Fam(GlobalId, Vec<Term>),
    /// A constructor at its family's parameters and its fields.
    Con(ConId, Vec<Term>, Vec<Term>),
    Case(Box<Case>),
    Delete(Box<Delete>),
    Def(GlobalId),
    Lit(Lit),
    IntTy,
    StringTy,
    HandleTy,
    IoTy(IoKind, Box<Term>),
    Prim(Primitive, Vec<Term>),
    /// An action at its type arguments and its arguments.
    Act(ActKind, Vec<Term>, Vec<Term>),
    /// A missing clause, with its type.
    Trap(Box<Term>),
    /// An open file handle of a run; no text makes one.
    Tape(u32),
}

// By hand: a value that is given up is then one call for the proof, not a case for each form.
impl Drop for Term {
    #[cycle(dropped)]
    fn drop(self) {
        match self {
            Term::Var(_) | Term::Sort(_) | Term::Def(_) | Term::Tape(_) => {}
            Term::IntTy | Term::StringTy | Term::HandleTy => {}
            Term::Pi(_, _domain, _codomain) => {}
            Term::Lam(_, _domain, _body) => {}
            Term::App(_, _function, _argument) => {}
            Term::Fam(_, _arguments) => {}
            Term::Con(_, _params, _fields) => {}
            Term::Case(_case) => {}
            Term::Delete(_delete) => {}
            Term::Lit(_lit) => {}
            Term::IoTy(_, _result) => {}
            Term::Prim(_, _arguments) => {}
            Term::Act(_, _types, _arguments) => {}
            Term::Trap(_ty) => {}
        }
    }
}

/// One branch of a Case, under the fields of its constructor.
#[derive(Debug, Drop)]
#[cycle(term)]
pub struct Branch {
    pub fields: u32,
    pub body: Term,
}

/// A Case. The motive stands under the family's indices and the scrutinee.
#[derive(Debug, Drop)]
#[cycle(term)]
pub struct Case {
    pub mult: Mult,
    pub family: GlobalId,
    pub params: Vec<Term>,
    pub indices: u32,
    pub motive: Term,
    pub branches: Vec<Branch>,
    pub scrutinee: Term,
}

/// A match on a proof that a point equals itself. The motive stands under the proof.
#[derive(Debug, Drop)]
#[cycle(term)]
pub struct Delete {
    pub mult: Mult,
    pub ty: Term,
    pub point: Term,
    pub motive: Term,
    pub branch: Term,
    pub scrutinee: Term,
}

impl Term {
    ghost use Rattle.std.specs.Prelude.{IfOk};
    ghost use Rattle.qtt_term.specs.Term.{Pi, Lam, App};
    ghost use Rattle.qtt_term.specs.View.{term};

    pub fn pi(alloc: Global, mult: Mult, domain: Term, codomain: Term) -> Result<Term, TermError>
        ensures { IfOk result (λ t. term t ≡ Pi mult (term domain) (term codomain)) }
    {
        Ok(Term::Pi(mult, Box::new(alloc, domain)?, Box::new(alloc, codomain)?))
    }

    pub fn lam(alloc: Global, mult: Mult, domain: Term, body: Term) -> Result<Term, TermError>
        ensures { IfOk result (λ t. term t ≡ Lam mult (term domain) (term body)) }
    {
        Ok(Term::Lam(mult, Box::new(alloc, domain)?, Box::new(alloc, body)?))
    }

    pub fn app(alloc: Global, mult: Mult, function: Term, argument: Term) -> Result<Term, TermError>
        ensures { IfOk result (λ t. term t ≡ App mult (term function) (term argument)) }
    {
        Ok(Term::App(mult, Box::new(alloc, function)?, Box::new(alloc, argument)?))
    }

    /// Takes the term out of its place, where `Int` stands then.
    pub fn take(&mut self) -> Term
        ensures { result ≡ self.old }
    {
        mem::replace(self, Term::IntTy)
    }
}
