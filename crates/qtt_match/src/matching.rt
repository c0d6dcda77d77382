//! Patterns that fit values.

ghost use Rattle.std.specs.Prelude.{◌≡◌, ◌↔◌, ℕ, map, Some, None};
ghost use Rattle.qtt_syntax.specs.View.{shape_of};
ghost use Rattle.qtt_syntax.specs.Tree.{shapes};
ghost use Rattle.qtt_term.specs.Globals.{families};
ghost use Rattle.qtt_term.specs.Term.{same_id};
ghost use Rattle.qtt_term.specs.View.{term, terms, side_by_side};
ghost use Rattle.qtt_match.specs.Constructors.{names_constructor as names};
ghost use Rattle.qtt_match.specs.Match.{fits as fit, all_fit as all, first_match as first, NoneFits, IsFirstMatch};
ghost use Rattle.qtt_match.specs.View.{patterns_of};

use qtt_base::GlobalId;
use qtt_syntax::{Clause, Named, Pattern, Target};
use qtt_term::{ConId, Globals, Term};

/// The first of the clauses, numbered from 0, all of whose patterns fit the values. A clause with
/// another number of patterns than there are values does not fit.
pub fn first_match(env: &Globals, clauses: &[Clause], values: &[Term]) -> Option<usize>
    ensures value { result ≡ first (families env.now) (map patterns_of clauses.now)
        (side_by_side (terms values.now)) }
    ensures some { (i : ℕ) → (result ≡ Some i) ↔ IsFirstMatch (families env.now)
        (map patterns_of clauses.now) (side_by_side (terms values.now)) i }
    ensures none { (result ≡ None) ↔ NoneFits (families env.now)
        (map patterns_of clauses.now) (side_by_side (terms values.now)) }
{
    for (place, clause) in clauses.iter().enumerate() {
        if all_fit(env, &clause.patterns, values) {
            return Some(place);
        }
    }
    None
}

#[cycle(fits)]
#[tactic(auto, using(crate::proofs::Components::fitting))]
fn fits(env: &Globals, pattern: &Pattern, value: &Term) -> bool
    ensures { result ≡ fit (families env.now) (shape_of pattern.now) (term value.now) }
{
    match (pattern, value) {
        (
            Pattern::Constructor {
                head,
                arguments,
                ..
            },
            Term::Con(con, _, fields),
        ) => names_constructor(env, head, *con) && all_fit(env, arguments, fields),
        (Pattern::Constructor { .. }, _) => false,
        _ => true,
    }
}

#[cycle(fits)]
#[tactic(auto, using(crate::proofs::Components::fitting))]
fn all_fit(env: &Globals, patterns: &[Pattern], values: &[Term]) -> bool
    ensures { result ≡ all (families env.now) (shapes (map shape_of patterns.now))
        (side_by_side (terms values.now)) }
{
    if patterns.len() != values.len() {
        return false;
    }
    for (place, pattern) in patterns.iter().enumerate() {
        if !fits(env, pattern, &values[place]) {
            return false;
        }
    }
    true
}

/// Whether a name stands for this constructor.
fn names_constructor(env: &Globals, name: &Named, con: ConId) -> bool
    ensures { result ≡ names (families env.now) name.now con.family con.place }
{
    let Target::Global(id) = name.target else {
        return false;
    };
    let Some((family, place)) = env.constructor(id) else {
        return false;
    };
    is_same(con.family, family.id) && con.place == place
}

fn is_same(one: GlobalId, other: GlobalId) -> bool
    ensures { result ≡ same_id one other }
{
    one.module.0 == other.module.0 && one.item == other.item
}
