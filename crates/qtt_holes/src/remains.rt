//! What is left of variables at a hole.

ghost use Rattle.std.specs.Prelude.{◌≡◌, map};
ghost use Rattle.qtt_usage.specs.Usage.{usage_at};
ghost use Rattle.qtt_term.specs.Contexts.{part};
ghost use Rattle.qtt_term.specs.View.{term};
ghost use Rattle.qtt_holes.specs.Calls.{told, all_remains};
ghost use Rattle.qtt_holes.specs.Hole.{left_of, fits_before, left_at};
ghost use Rattle.qtt_holes.specs.View.{seen as seen_of};

use crate::hole::Seen;
use qtt_bidi::Scope;
use qtt_term::{Sigma, Term};
use qtt_usage::mult::Mult;
use qtt_usage::usage::Usage;

/// What is left of a variable that is declared so and was used so before the hole.
pub fn left_of(sigma: Sigma, declared: Mult, used: Mult) -> Mult
    ensures { result ≡ left_of (part sigma) declared used }
{
    match (sigma, declared, used) {
        (Sigma::Run, Mult::Many, _) => Mult::Many,
        (Sigma::Run, Mult::One, Mult::Zero) => Mult::One,
        _ => Mult::Zero,
    }
}

/// Whether a variable that is declared so may still stand before a hole.
pub fn fits_before(used: Mult, declared: Mult) -> bool
    ensures { result ≡ fits_before used declared }
{
    match (used, declared) {
        (Mult::Many, Mult::One) => false,
        _ => true,
    }
}

/// The use of a variable.
#[tactic(auto, using(crate::proofs::Left::left))]
pub fn use_of(uses: &Usage, index: u32) -> Mult
    ensures { result ≡ usage_at uses.now index }
{
    let place = index as usize;
    if place < uses.len() {
        uses.get(place)
    } else {
        Mult::Zero
    }
}

/// What is left of the variables that were bound on the way, the newest first, and what the others
/// were used for before the hole.
#[derive(Drop)]
pub struct Remains<'a> {
    pub sigma: Sigma,
    pub scope: &'a Scope<'a>,
    pub uses: &'a Usage,
    pub left: &'a [Mult],
}

impl<'a> Remains<'a> {
    /// What is left of a variable.
    #[tactic(auto, using(crate::proofs::Left::left))]
    fn of(&self, index: u32) -> Mult
        ensures { result ≡ usage_at (all_remains self.now) index }
    {
        let place = index as usize;
        if place < self.left.len() {
            return self.left[place];
        }
        let outer = index - self.left.len() as u32;
        left_of(self.sigma, self.scope.mult(outer), use_of(self.uses, outer))
    }

    /// What is left of what a name stands for, where it is a variable.
    fn at(&self, stands: &Term) -> Option<Mult>
        ensures { result ≡ left_at (all_remains self.now) (term stands.now) }
    {
        match stands {
            Term::Var(index) => Some(self.of(*index)),
            _ => None,
        }
    }

    /// Tells what is left of each name in sight.
    pub fn tell(&self, seen: &mut [Seen])
        ensures { map seen_of seen.new ≡ map (told (all_remains self.now)) (map seen_of seen.old) }
    {
        for one in seen.iter_mut() {
            one.left = self.at(&one.stands);
        }
    }
}
