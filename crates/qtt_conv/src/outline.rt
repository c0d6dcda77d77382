//! Forms with their fixed parts, and how many components they have.

ghost use Rattle.std.specs.Prelude.{◌≡◌, ◌↔◌, map, IsTrue};
ghost use Rattle.qtt_term.specs.View.{term, case, branches};
ghost use Rattle.qtt_confluence.specs.Heads.{outline};

use qtt_term::{Branch, Case, Term};

/// Whether both have the same form, the same fixed parts and as many components.
#[tactic(auto, using(crate::proofs::Outlines::outlines))]
pub fn same_outline(one: &Term, other: &Term) -> bool
    ensures { IsTrue result ↔ (outline (term one.now) ≡ outline (term other.now)) }
{
    match (one, other) {
        (Term::Var(i), Term::Var(j)) => i == j,
        (Term::Sort(i), Term::Sort(j)) => i == j,
        (Term::Pi(p, _, _), Term::Pi(q, _, _)) => p == q,
        (Term::Lam(p, _, _), Term::Lam(q, _, _)) => p == q,
        (Term::App(p, _, _), Term::App(q, _, _)) => p == q,
        (Term::Fam(g, xs), Term::Fam(h, ys)) => g == h && xs.len() == ys.len(),
        (Term::Con(g, ps, xs), Term::Con(h, qs, ys)) => {
            g == h && ps.len() == qs.len() && xs.len() == ys.len()
        }
        (Term::Case(a), Term::Case(b)) => same_branching(a, b),
        (Term::Delete(a), Term::Delete(b)) => a.mult == b.mult,
        (Term::Def(g), Term::Def(h)) => g == h,
        (Term::Lit(a), Term::Lit(b)) => a.same(b),
        (Term::IntTy, Term::IntTy) => true,
        (Term::StringTy, Term::StringTy) => true,
        (Term::HandleTy, Term::HandleTy) => true,
        (Term::IoTy(k, _), Term::IoTy(m, _)) => k == m,
        (Term::Prim(p, xs), Term::Prim(q, ys)) => p == q && xs.len() == ys.len(),
        (Term::Act(p, ps, xs), Term::Act(q, qs, ys)) => {
            p == q && ps.len() == qs.len() && xs.len() == ys.len()
        }
        (Term::Trap(_), Term::Trap(_)) => true,
        (Term::Tape(i), Term::Tape(j)) => i == j,
        _ => false,
    }
}

#[tactic(auto, using(crate::proofs::Outlines::outlines))]
fn same_branching(one: &Case, other: &Case) -> bool
    ensures { IsTrue result ↔ (outline (case one.now) ≡ outline (case other.now)) }
{
    one.mult == other.mult
        && one.family == other.family
        && one.indices == other.indices
        && one.params.len() == other.params.len()
        && same_fields(&one.branches, &other.branches)
}

/// Whether branches stand under the same numbers of binders.
#[tactic(auto, using(crate::proofs::Outlines::outlines))]
fn same_fields(ones: &[Branch], others: &[Branch]) -> bool
    ensures { IsTrue result ↔
        (map (λ b. b.0) (branches ones.now) ≡ map (λ b. b.0) (branches others.now)) }
{
    if ones.len() != others.len() {
        return false;
    }
    for (i, one) in ones.iter().enumerate() {
        if one.fields != others[i].fields {
            return false;
        }
    }
    true
}
