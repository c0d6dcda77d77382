//! Places of written variables among all variables of a clause.

ghost use Rattle.std.specs.Prelude.{◌≡◌, ℕ, IfOk};
ghost use Rattle.qtt_implicit.specs.Patterns.{place_among};
ghost use Rattle.qtt_implicit.specs.Forgetting.{target_without};
ghost use Rattle.qtt_implicit.specs.Placing.{place_of};

use crate::forgetting::numbers::{is_inserted, more};
use qtt_base::MemoryError;
use qtt_syntax::{Mark, Target};
use std::alloc::Global;

/// The places of the written variables of a clause among all of them.
#[derive(Drop)]
pub(crate) struct Places {
    /// For each written variable, the newest first, how many variables are newer.
    newer: Vec<u32>,
    /// How many variables were inserted.
    inserted: u32,
}

impl Places {
    /// Among variables that came into the text so, the newest first.
    pub fn among(alloc: Global, marks: &[Mark]) -> Result<Places, MemoryError>
        ensures { IfOk result (λ places. (i : ℕ) → place_of places i ≡ place_among marks.now i) }
    {
        let mut newer = Vec::with_capacity(alloc, marks.len())?;
        let mut place = 0;
        let mut inserted = 0;
        for mark in marks {
            if is_inserted(*mark) {
                inserted = more(inserted, 1)?;
            } else {
                newer.push(place)?;
            }
            place = more(place, 1)?;
        }
        Ok(Places { newer, inserted })
    }

    fn place(&self, variable: u32) -> Result<u32, MemoryError>
        ensures { IfOk result (λ place. place ≡ place_of self.now variable) }
    {
        match self.newer.get(variable as usize) {
            Some(newer) => Ok(*newer),
            None => more(variable, self.inserted as usize),
        }
    }

    /// What a used name stands for among all variables, behind so many binders.
    pub fn target(&self, depth: u32, target: Target) -> Result<Target, MemoryError>
        ensures { IfOk result (λ t. t ≡ target_without (place_of self.now) depth target) }
    {
        match target {
            Target::Local(local) if local >= depth => {
                match self.place(local - depth)?.checked_add(depth) {
                    Some(local) => Ok(Target::Local(local)),
                    None => Err(MemoryError),
                }
            }
            Target::Local(_) | Target::Global(_) | Target::Unknown => Ok(target),
        }
    }
}
