//! What becomes of a node's variables in a branch, and of what was seen of them.

ghost use Rattle.std.specs.Prelude.{◌≡◌, ℕ, IfOk, cond, eqb, map};
ghost use Rattle.qtt_split.specs.Branch.{stands as stands_at, seen_as};
ghost use Rattle.qtt_split.specs.Branching.{becomes, deeper_sights, moved_seen, moved_sights};
ghost use Rattle.qtt_split.specs.Seen.{Seen as SeenAt, seen_deeper};
ghost use Rattle.qtt_split.specs.Sights.{seen_of, sights_of};
ghost use Rattle.qtt_split.specs.Substitution.{stands_for};
ghost use Rattle.qtt_term.specs.View.{term};
ghost use Rattle.qtt_unify.specs.View.{solution};

use crate::sights::Seen;
use crate::start::start_sights;
use crate::substitution::{Substitution, sum};
use qtt_base::MemoryError;
use qtt_term::{ConId, Term, TermError};
use qtt_usage::mult::Mult;
use std::alloc::Global;

/// What stands for a node's variables under so many fields, where the split variable is this
/// constructor of them and others are solved.
pub fn standing(
    alloc: Global,
    variable: u32,
    con: &Term,
    solved: &[(u32, Term)],
    fields: u32,
) -> Result<Substitution, TermError>
    ensures { IfOk result
        (λ s. (i : ℕ) → stands_for s i ≡ stands_at variable (term con.now) (map solution solved.now)
        fields i) }
{
    let mut stands = Substitution::raising(alloc, fields);
    for place in (0..solved.len()).rev() {
        let (other, value) = &solved[place];
        stands.put(*other, value.copy(alloc)?)?;
    }
    stands.put(variable, con.copy(alloc)?)?;
    Ok(stands)
}

/// What was seen, under one binder more.
#[cycle(deeper)]
fn deeper(alloc: Global, seen: &Seen) -> Result<Seen, MemoryError>
    ensures { IfOk result (λ s. seen_of s ≡ seen_deeper (seen_of seen.now)) }
{
    match seen {
        Seen::OpenAt(variable) => Ok(Seen::OpenAt(sum(*variable, 1)?)),
        Seen::ByEquation(value) => Ok(Seen::ByEquation(value.shift(alloc, 0, 1)?)),
        Seen::MadeOf(con, fields) => Ok(Seen::MadeOf(*con, all_deeper(alloc, fields)?)),
    }
}

#[cycle(deeper)]
fn all_deeper(alloc: Global, sights: &[Seen]) -> Result<Vec<Seen>, MemoryError>
    ensures { IfOk result (λ ss. sights_of ss.items ≡ deeper_sights (sights_of sights.now)) }
{
    let mut all = Vec::with_capacity(alloc, sights.len())?;
    for seen in sights {
        all.push(deeper(alloc, seen)?)?;
    }
    Ok(all)
}

/// What was seen of a variable, where another one is bound again by a new binder.
fn renewed(alloc: Global, seen: &Seen, variable: u32, other: u32) -> Result<Seen, MemoryError>
    ensures { IfOk result
        (λ s. seen_of s ≡ cond (eqb variable other) (SeenAt.open_at 0)
        (seen_deeper (seen_of seen.now))) }
{
    if variable == other {
        Ok(Seen::OpenAt(0))
    } else {
        deeper(alloc, seen)
    }
}

/// What becomes of a node's variables in a branch: the split variable is this constructor of so
/// many fields, others are solved, and others are bound again.
#[derive(Drop)]
pub struct Branching<'s> {
    pub variable: u32,
    pub con: ConId,
    pub fields: u32,
    pub solved: &'s [(u32, Term)],
    pub reverted: &'s [(Mult, u32)],
    /// The terms that stand for the node's variables.
    pub stands: &'s Substitution,
}

impl Branching<'_> {
    /// What is seen of a variable under the fields alone.
    fn under_fields(&self, alloc: Global, variable: u32) -> Result<Seen, MemoryError>
        ensures { IfOk result
            (λ s. seen_of s ≡ seen_as self.now.variable self.now.con
            (map solution self.now.solved.now) self.now.fields variable) }
    {
        if variable == self.variable {
            return Ok(Seen::MadeOf(self.con, start_sights(alloc, self.fields)?));
        }
        for (other, value) in self.solved {
            if *other == variable {
                return Ok(Seen::ByEquation(value.copy(alloc)?));
            }
        }
        Ok(Seen::OpenAt(sum(self.fields, variable)?))
    }

    /// What is seen of a live variable.
    fn seen_at(&self, alloc: Global, variable: u32) -> Result<Seen, MemoryError>
        ensures { IfOk result (λ s. seen_of s ≡ becomes self.now variable) }
    {
        let mut seen = self.under_fields(alloc, variable)?;
        for bound in self.reverted {
            seen = renewed(alloc, &seen, variable, bound.1)?;
        }
        Ok(seen)
    }

    /// What was seen at the node, as it is in the branch.
    #[cycle(moved)]
    fn moved(&self, alloc: Global, seen: &Seen) -> Result<Seen, MemoryError>
        ensures { IfOk result (λ s. seen_of s ≡ moved_seen self.now (seen_of seen.now)) }
    {
        match seen {
            Seen::OpenAt(variable) => self.seen_at(alloc, *variable),
            Seen::ByEquation(value) => Ok(Seen::ByEquation(self.stands.apply(alloc, value)?)),
            Seen::MadeOf(con, fields) => Ok(Seen::MadeOf(*con, self.all_moved(alloc, fields)?)),
        }
    }

    #[cycle(moved)]
    pub fn all_moved(&self, alloc: Global, sights: &[Seen]) -> Result<Vec<Seen>, MemoryError>
        ensures { IfOk result
            (λ ss. sights_of ss.items ≡ moved_sights self.now (sights_of sights.now)) }
    {
        let mut moved = Vec::with_capacity(alloc, sights.len())?;
        for seen in sights {
            moved.push(self.moved(alloc, seen)?)?;
        }
        Ok(moved)
    }
}
