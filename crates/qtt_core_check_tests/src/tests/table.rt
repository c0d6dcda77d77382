//! Rows of terms with their answers.

use qtt_conv::BySubst;
use qtt_core_check::infer;
use qtt_term::{Ctx, Globals, Sigma, Term, TermError};
use std::alloc::Global;

/// A term, or want of memory.
pub type Made = Result<Term, TermError>;

/// Rows of terms with their answers, in the empty context.
#[derive(Drop)]
pub struct Table<'a> {
    pub alloc: Global,
    globals: &'a Globals,
    pub budget: u64,
    pub sigma: Sigma,
    /// An answer that is another than its row's.
    pub wrong: Option<String>,
}

impl<'a> Table<'a> {
    pub fn new(alloc: Global, globals: &'a Globals, budget: u64) -> Table<'a> {
        Table {
            alloc,
            globals,
            budget,
            sigma: Sigma::Run,
            wrong: None,
        }
    }

    /// The type that is inferred, or the refusal.
    fn answer(&self, made: Made) -> Option<String> {
        let context = Ctx {
            vars: Vec::new(self.alloc),
            names: Vec::new(self.alloc),
        };
        let Ok(t) = made else {
            return None;
        };
        match infer(
            self.alloc,
            &BySubst,
            self.budget,
            self.globals,
            &context,
            self.sigma,
            &t,
        ) {
            Ok((ty, _)) => format!(in self.alloc; "{ty:?}").ok(),
            Err(refusal) => format!(in self.alloc; "{refusal:?}").ok(),
        }
    }

    /// Whether the answer is this.
    pub fn row(&mut self, made: Made, wanted: &str) {
        match self.answer(made) {
            Some(found) => {
                if found.as_str() != wanted {
                    self.wrong = Some(found);
                }
            }
            None => self.wrong = Some(String::new(self.alloc)),
        }
    }

    /// Whether the answer begins so.
    pub fn front(&mut self, made: Made, wanted: &str) {
        match self.answer(made) {
            Some(found) => {
                if !found.as_str().starts_with(wanted) {
                    self.wrong = Some(found);
                }
            }
            None => self.wrong = Some(String::new(self.alloc)),
        }
    }
}
