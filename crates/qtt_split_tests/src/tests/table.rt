//! Rows of definitions with their trees or refusals.

use super::environment::known;
use super::outline::outline;
use super::reading::clauses;
use qtt_base::Name;
use qtt_conv::BySubst;
use qtt_rules::ElabError;
use qtt_split::{Planned, plan};
use qtt_term::{Globals, Sigma, Term};
use std::alloc::Global;
use std::test::Fail;

/// The items that each text begins with, 12 lines.
const FRONT: &str = "module Main
data Nat : Type where
  Z : Nat
  S : Nat -> Nat
plus : Nat -> Nat -> Nat
plus Z m = m
plus (S n) m = S (plus n m)
data Vect (a : Type) : Nat -> Type where
  Nil : Vect a Z
  Cons : (0 k : Nat) -> (1 x : a) -> (1 xs : Vect a k) -> Vect a (S k)
data Same (x : Type) : Type -> Type where
  MkSame : Same x x
";

/// Rows of definitions with their trees or refusals, by questions that take no contraction.
#[derive(Drop)]
pub struct Table {
    pub alloc: Global,
    globals: Globals,
    pub sigma: Sigma,
    /// The names of the signature's written binders.
    pub labels: Vec<Name>,
    /// An answer that is another than its row's.
    pub wrong: Option<String>,
}

impl Table {
    pub fn new(alloc: Global) -> Result<Table, Fail> {
        Ok(Table {
            alloc,
            globals: known(alloc)?,
            sigma: Sigma::Run,
            labels: Vec::new(alloc),
            wrong: None,
        })
    }

    /// What the definition `f` of this type is planned as, whose text stands from line 13 on.
    pub fn planned(&self, text: &str, ty: &Term) -> Result<Result<Planned, ElabError>, Fail> {
        let mut whole = String::new(self.alloc);
        whole.push_str(FRONT)?;
        whole.push_str(text)?;
        let clauses = clauses(self.alloc, whole.as_str(), "f")?;
        Ok(plan(
            self.alloc,
            &BySubst,
            0,
            &self.globals,
            self.sigma,
            &clauses,
            ty,
            &self.labels,
        ))
    }

    /// The tree in one line, or the refusal.
    fn answer(&self, text: &str, ty: &Term) -> Result<String, Fail> {
        match self.planned(text, ty)? {
            Ok(planned) => outline(self.alloc, &planned.tree),
            Err(refusal) => Ok(format!(in self.alloc; "{refusal:?}")?),
        }
    }

    /// Whether the answer is this.
    pub fn row(&mut self, ty: &Term, text: &str, wanted: &str) -> Result<(), Fail> {
        let found = self.answer(text, ty)?;
        if found.as_str() != wanted {
            self.wrong = Some(found);
        }
        Ok(())
    }
}
