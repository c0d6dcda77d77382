//! The way through the targets of a split.

ghost use Rattle.std.specs.Prelude.{◌≡◌, ◌+◌, ◌++◌, suc, IfOk, OnOk, drop, map};
ghost use Rattle.qtt_term.specs.Substitution.{shift as shift_by};
ghost use Rattle.qtt_term.specs.View.{term};
ghost use Rattle.qtt_unify.specs.View.{all_terms};
ghost use Rattle.qtt_split.specs.Motive.{first_place, field_places, at_variable, indices_with, within_fields};
ghost use Rattle.qtt_split.specs.Ways.{way_of, begun};

use crate::constructors::{above, raised};
use crate::substitution::{Substitution, sum};
use qtt_term::{Term, TermError};
use std::alloc::Global;

/// So many binders below the node: what stands for the node's variables; the indices of the
/// scrutinee's type; the variables at which the targets stand that are still to be gone through;
/// and the scrutinee.
#[derive(Debug, Drop)]
pub struct Way {
    pub depth: u32,
    pub stands: Substitution,
    pub indices: Vec<Term>,
    pub places: Vec<u32>,
    pub scrutinee: u32,
}

/// The variables of so many fields, the newest of which has one binder below it, and behind them
/// others under these binders.
fn field_places(alloc: Global, count: u32, behind: &[u32]) -> Result<Vec<u32>, TermError>
    ensures { IfOk result
        (λ v. v.items ≡ field_places 1 count ++ map (shift_by (suc count)) behind.now) }
{
    let mut places = Vec::new(alloc);
    for field in (0..count).rev() {
        places.push(sum(field, 1)?)?;
    }
    let by = sum(count, 1)?;
    for place in behind {
        places.push(sum(*place, by)?)?;
    }
    Ok(places)
}

impl Way {
    /// Under so many indices and the scrutinee.
    pub fn begun(alloc: Global, count: u32) -> Result<Way, TermError>
        ensures { IfOk result (λ w. way_of w ≡ begun count) }
    {
        let depth = sum(count, 1)?;
        Ok(Way {
            depth,
            stands: Substitution::raising(alloc, depth),
            indices: above(alloc, 1, count)?,
            places: field_places(alloc, count, &[])?,
            scrutinee: 0,
        })
    }

    /// The variable at which the next target stands.
    pub fn first_place(&self) -> u32
        ensures { result ≡ first_place self.now.places.items }
    {
        match self.places.first() {
            Some(place) => *place,
            None => 0,
        }
    }

    /// Those behind it.
    fn other_places(&self) -> &[u32]
        ensures { result.now ≡ drop 1 self.now.places.items }
    {
        match self.places.split_first() {
            Some((_, others)) => others,
            None => &[],
        }
    }

    /// Past a target that is a variable of the node.
    pub fn pass(&mut self, alloc: Global, variable: u32) -> Result<(), TermError>
        ensures { OnOk result (way_of self.new ≡ at_variable variable (way_of self.old)) }
    {
        let place = self.first_place();
        self.stands.put(variable, Term::Var(place))?;
        self.places = self.other_places().to_vec(alloc)?;
        Ok(())
    }

    /// The indices under so many binders more, with a term in the next target's place.
    pub fn indices_with(
        &self,
        alloc: Global,
        count: u32,
        target: Term,
    ) -> Result<Vec<Term>, TermError>
        ensures { IfOk result
            (λ v. all_terms v.items ≡ indices_with count (term target) (way_of self.now)) }
    {
        let mut values = Substitution::raising(alloc, count);
        values.put(self.first_place(), target)?;
        let mut indices = Vec::with_capacity(alloc, self.indices.len())?;
        for index in &self.indices {
            indices.push(values.apply(alloc, index)?)?;
        }
        Ok(indices)
    }

    /// Into the fields of a constructor that stands in the next target's place, under a scrutinee
    /// of their own.
    pub fn within_fields(&self, alloc: Global, count: u32, con: Term) -> Result<Way, TermError>
        ensures { IfOk result
            (λ w. way_of w ≡ within_fields count (term con) (way_of self.now)) }
    {
        let by = sum(count, 1)?;
        let indices = self.indices_with(alloc, count, con)?;
        Ok(Way {
            depth: sum(by, self.depth)?,
            stands: self.stands.deeper(alloc, by)?,
            indices: raised(alloc, 1, &indices)?,
            places: field_places(alloc, count, self.other_places())?,
            scrutinee: 0,
        })
    }
}
