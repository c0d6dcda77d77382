//! Numbers of local names among the written ones.

ghost use Rattle.std.specs.Prelude.{◌≡◌, ◌+◌, ℕ, IfOk};
ghost use Rattle.qtt_syntax.specs.Tree.Tree.{name as name_tree};
ghost use Rattle.qtt_implicit.specs.Walk.{is_inserted as was_inserted};
ghost use Rattle.qtt_implicit.specs.Forget.{number_among};
ghost use Rattle.qtt_implicit.specs.Forgetting.{number_of, target_without, without};

use qtt_base::MemoryError;
use qtt_syntax::{Mark, Named, Target};
use std::alloc::Global;

/// So many more.
pub fn more(number: u32, by: usize) -> Result<u32, MemoryError>
    ensures { IfOk result (λ n. n ≡ number + by) }
{
    match u32::try_from(by) {
        Ok(by) => match number.checked_add(by) {
            Some(number) => Ok(number),
            None => Err(MemoryError),
        },
        Err(_) => Err(MemoryError),
    }
}

pub fn is_inserted(mark: Mark) -> bool
    ensures { result ≡ was_inserted mark }
{
    match mark {
        Mark::Inserted => true,
        Mark::Written | Mark::Braced => false,
    }
}

/// The numbers of the local names of a clause among the written ones.
#[derive(Drop)]
pub struct Numbers {
    /// For each variable, the newest first, how many newer ones were written.
    newer: Vec<u32>,
    /// How many variables were inserted.
    inserted: u32,
}

impl Numbers {
    /// Each name keeps its number.
    pub fn kept(alloc: Global) -> Numbers
        ensures { (i : ℕ) → number_of result i ≡ i }
    {
        Numbers {
            newer: Vec::new(alloc),
            inserted: 0,
        }
    }

    /// Among variables that came into the text so, the newest first.
    pub fn among(alloc: Global, marks: &[Mark]) -> Result<Numbers, MemoryError>
        ensures { IfOk result (λ numbers. (i : ℕ) →
            number_of numbers i ≡ number_among marks.now i) }
    {
        let mut newer = Vec::with_capacity(alloc, marks.len())?;
        let mut written = 0;
        let mut inserted = 0;
        for mark in marks {
            newer.push(written)?;
            if is_inserted(*mark) {
                inserted = more(inserted, 1)?;
            } else {
                written = more(written, 1)?;
            }
        }
        Ok(Numbers { newer, inserted })
    }

    fn number(&self, variable: u32) -> u32
        ensures { result ≡ number_of self.now variable }
    {
        match self.newer.get(variable as usize) {
            Some(newer) => *newer,
            None => variable.saturating_sub(self.inserted),
        }
    }

    /// What a used name stands for, behind so many binders.
    fn target(&self, depth: u32, target: Target) -> Result<Target, MemoryError>
        ensures { IfOk result (λ t. t ≡ target_without (number_of self.now) depth target) }
    {
        match target {
            Target::Local(local) if local >= depth => {
                match self.number(local - depth).checked_add(depth) {
                    Some(local) => Ok(Target::Local(local)),
                    None => Err(MemoryError),
                }
            }
            Target::Local(_) | Target::Global(_) | Target::Unknown => Ok(target),
        }
    }

    pub fn name(&self, depth: u32, source: &Named) -> Result<Named, MemoryError>
        ensures { IfOk result (λ n. name_tree n ≡ without (number_of self.now) depth
            (name_tree source.now)) }
    {
        Ok(Named {
            path: source.path.copy()?,
            target: self.target(depth, source.target)?,
            span: source.span,
        })
    }
}
