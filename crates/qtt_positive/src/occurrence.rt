//! Where a family occurs.

ghost use Rattle.std.specs.Prelude.{◌≡◌, map};
ghost use Rattle.qtt_term.specs.Term.{same_id};
ghost use Rattle.qtt_term.specs.View.{term, terms, case, delete, branches, side_by_side};
ghost use Rattle.qtt_positive.specs.FirstBad.{occurs as occurs_at, occurs_in as occurs_among};

use qtt_base::GlobalId;
use qtt_term::{Branch, Case, Delete, Term};

/// Whether a family occurs in a term.
#[cycle(occurs)]
#[tactic(auto, using(crate::proofs::Occurs::occurring))]
pub(crate) fn occurs(family: GlobalId, source: &Term) -> bool
    ensures { result ≡ occurs_at family (term source.now) }
{
    match source {
        Term::Pi(_, a, b) | Term::Lam(_, a, b) | Term::App(_, a, b) => {
            occurs(family, a) || occurs(family, b)
        }
        Term::Fam(id, args) => is_same(family, *id) || occurs_in(family, args),
        Term::Con(con, params, fields) => {
            is_same(family, con.family) || occurs_in(family, params) || occurs_in(family, fields)
        }
        Term::Case(case) => occurs_in_case(family, case),
        Term::Delete(delete) => occurs_in_delete(family, delete),
        Term::IoTy(_, a) | Term::Trap(a) => occurs(family, a),
        Term::Prim(_, args) => occurs_in(family, args),
        Term::Act(_, types, args) => occurs_in(family, types) || occurs_in(family, args),
        _ => false,
    }
}

#[cycle(occurs)]
#[tactic(auto, using(crate::proofs::Occurs::occurring))]
pub(crate) fn occurs_in(family: GlobalId, sources: &[Term]) -> bool
    ensures { result ≡ occurs_among family (side_by_side (terms sources.now)) }
{
    for source in sources {
        if occurs(family, source) {
            return true;
        }
    }
    false
}

#[cycle(occurs)]
#[tactic(auto, using(crate::proofs::Occurs::occurring))]
fn occurs_in_branches(family: GlobalId, sources: &[Branch]) -> bool
    ensures { result ≡ occurs_among family
        (side_by_side (map (λ b. b.1) (branches sources.now))) }
{
    for source in sources {
        if occurs(family, &source.body) {
            return true;
        }
    }
    false
}

#[cycle(occurs)]
#[tactic(auto, using(crate::proofs::Occurs::occurring))]
fn occurs_in_case(family: GlobalId, source: &Case) -> bool
    ensures { result ≡ occurs_at family (case source.now) }
{
    is_same(family, source.family)
        || occurs_in(family, &source.params)
        || occurs(family, &source.motive)
        || occurs_in_branches(family, &source.branches)
        || occurs(family, &source.scrutinee)
}

#[cycle(occurs)]
#[tactic(auto, using(crate::proofs::Occurs::occurring))]
fn occurs_in_delete(family: GlobalId, source: &Delete) -> bool
    ensures { result ≡ occurs_at family (delete source.now) }
{
    occurs(family, &source.ty)
        || occurs(family, &source.point)
        || occurs(family, &source.motive)
        || occurs(family, &source.branch)
        || occurs(family, &source.scrutinee)
}

fn is_same(one: GlobalId, other: GlobalId) -> bool
    ensures { result ≡ same_id one other }
{
    one.module.0 == other.module.0 && one.item == other.item
}
