//! What stands for a node's variables in a branch.

ghost use Rattle.std.specs.Prelude.{◌≡◌, ◌+◌, ◌<◌, ℕ, suc, IfOk, OnOk, length};
ghost use Rattle.qtt_term.specs.Substitution.{ren, sub, shift};
ghost use Rattle.qtt_term.specs.Term.{var};
ghost use Rattle.qtt_term.specs.View.{term};
ghost use Rattle.qtt_split.specs.Branch.{put};
ghost use Rattle.qtt_split.specs.Substitution.{stands_for};

use qtt_term::telescopes::number;
use qtt_term::{Term, TermError};
use std::alloc::Global;

/// Terms for the newest variables, the last of them for variable 0; each other variable is raised.
#[derive(Debug, Drop)]
pub struct Substitution {
    values: Vec<Term>,
    by: u32,
}

/// The sum of two numbers of variables.
pub fn sum(one: u32, other: u32) -> Result<u32, TermError>
    ensures { IfOk result (λ n. n ≡ one + other) }
{
    match one.checked_add(other) {
        Some(sum) => Ok(sum),
        None => Err(TermError::Memory),
    }
}

impl Substitution {
    /// Each variable stands for itself under so many binders more.
    pub fn raising(alloc: Global, by: u32) -> Substitution
        ensures { (i : ℕ) → stands_for result i ≡ var (shift by i) }
    {
        Substitution {
            values: Vec::new(alloc),
            by,
        }
    }

    /// The same under so many binders more.
    pub fn deeper(&self, alloc: Global, by: u32) -> Result<Substitution, TermError>
        ensures { IfOk result
            (λ s. (i : ℕ) → stands_for s i ≡ ren (shift by) (stands_for self.now i)) }
    {
        let mut values = Vec::with_capacity(alloc, self.values.len())?;
        for value in &self.values {
            values.push(value.shift(alloc, 0, by)?)?;
        }
        Ok(Substitution {
            values,
            by: sum(self.by, by)?,
        })
    }

    /// A term where this stands for its variables.
    pub fn apply(&self, alloc: Global, t: &Term) -> Result<Term, TermError>
        ensures { IfOk result (λ u. term u ≡ sub (stands_for self.now) (term t.now)) }
    {
        let count = number(self.values.len())?;
        let raised = t.shift(alloc, count, sum(count, self.by)?)?;
        raised.subst(alloc, &self.values)
    }

    /// Room for a value of this variable.
    fn reach(&mut self, variable: u32) -> Result<(), TermError>
        ensures same { OnOk result ((i : ℕ) → stands_for self.new i ≡ stands_for self.old i) }
        ensures long { OnOk result (variable < length self.new.values.items) }
    {
        while self.values.len() <= variable as usize {
            let newest = sum(number(self.values.len())?, self.by)?;
            self.values.insert(0, Term::Var(newest))?;
        }
        Ok(())
    }

    /// A term for one variable.
    pub fn put(&mut self, variable: u32, value: Term) -> Result<(), TermError>
        ensures { OnOk result
            ((i : ℕ) → stands_for self.new i ≡ put variable (term value) (stands_for self.old) i) }
    {
        self.reach(variable)?;
        let place = self.values.len() - 1 - variable as usize;
        self.values[place] = value;
        Ok(())
    }

    /// The same under a new binder, which stands for one variable.
    pub fn rebind(&mut self, alloc: Global, variable: u32) -> Result<(), TermError>
        ensures { OnOk result ((i : ℕ) → stands_for self.new i ≡
            put variable (var 0) (λ j. ren suc (stands_for self.old j)) i) }
    {
        let mut deeper = Vec::with_capacity(alloc, self.values.len())?;
        for value in &self.values {
            deeper.push(value.shift(alloc, 0, 1)?)?;
        }
        self.values = deeper;
        self.by = sum(self.by, 1)?;
        self.put(variable, Term::Var(0))
    }
}
