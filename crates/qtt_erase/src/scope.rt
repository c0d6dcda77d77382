//! The variables in scope, and what is left of each.

ghost use Rattle.std.specs.Prelude.{◌≡◌, ◌≤◌};
ghost use Rattle.qtt_erase.specs.Erasure.{argument_slot as slot_of_argument, field_slot as slot_of_field, slot_at, place_at};
ghost use Rattle.qtt_erase.specs.Scopes.{slot, slots};

use qtt_usage::mult::Mult;

/// What a binder of a term is in its erasure: none, a binder that nothing mentions, or a binder.
#[derive(Clone, Copy, Debug, PartialEq, Eq)]
pub enum Slot {
    Gone,
    Blank,
    Filled,
}

/// The slots of the variables in scope, the newest first.
#[derive(Drop)]
pub enum Scope<'a> {
    Empty,
    Bound(&'a Scope<'a>, Slot),
}

/// The slot of an argument.
pub fn argument_slot(mult: Mult) -> Slot
    ensures { slot result ≡ slot_of_argument mult }
{
    match mult {
        Mult::Zero => Slot::Gone,
        Mult::One | Mult::Many => Slot::Filled,
    }
}

/// The slot of a field, of a Case at the first multiplicity.
pub fn field_slot(case: Mult, field: Mult) -> Slot
    ensures { slot result ≡ slot_of_field case field }
{
    match (case, field) {
        (_, Mult::Zero) => Slot::Gone,
        (Mult::Zero, _) => Slot::Blank,
        _ => Slot::Filled,
    }
}

impl<'a> Scope<'a> {
    /// Gone for a variable that is not in scope.
    pub fn slot(&self, index: u32) -> Slot
        ensures { slot result ≡ slot_at (slots self.now) index }
    {
        match self {
            Scope::Empty => Slot::Gone,
            Scope::Bound(outer, slot) => {
                if index == 0 {
                    *slot
                } else {
                    outer.slot(index - 1)
                }
            }
        }
    }

    /// How many newer variables are left.
    pub fn place(&self, index: u32) -> u32
        ensures place { result ≡ place_at (slots self.now) index }
        ensures fits { result ≤ index }
    {
        match self {
            Scope::Empty => 0,
            Scope::Bound(outer, slot) => {
                if index == 0 {
                    return 0;
                }
                let place = outer.place(index - 1);
                match slot {
                    Slot::Gone => place,
                    Slot::Blank | Slot::Filled => place + 1,
                }
            }
        }
    }
}
