//! Syntactic equality.

ghost use Rattle.std.specs.Prelude.{◌≡◌, ◌↔◌, IsTrue};
ghost use Rattle.qtt_term.specs.View.{term, terms, case, delete, branch, branches};

use crate::term::{Branch, Case, Delete, Term};

impl Term {
    /// Whether both stand for the same term.
    pub fn same(&self, other: &Term) -> bool
        ensures { IsTrue result ↔ (term self.now ≡ term other.now) }
    {
        same_term(self, other)
    }
}

#[cycle(same_term)]
fn same_term(one: &Term, other: &Term) -> bool
    ensures { IsTrue result ↔ (term one.now ≡ term other.now) }
{
    match (one, other) {
        (Term::Var(i), Term::Var(j)) => i == j,
        (Term::Sort(i), Term::Sort(j)) => i == j,
        (Term::Pi(p, a, b), Term::Pi(q, c, d)) => p == q && same_term(a, c) && same_term(b, d),
        (Term::Lam(p, a, b), Term::Lam(q, c, d)) => p == q && same_term(a, c) && same_term(b, d),
        (Term::App(p, a, b), Term::App(q, c, d)) => p == q && same_term(a, c) && same_term(b, d),
        (Term::Fam(g, xs), Term::Fam(h, ys)) => g == h && same_all(xs, ys),
        (Term::Con(g, ps, xs), Term::Con(h, qs, ys)) => {
            g == h && same_all(ps, qs) && same_all(xs, ys)
        }
        (Term::Case(a), Term::Case(b)) => same_case(a, b),
        (Term::Delete(a), Term::Delete(b)) => same_delete(a, b),
        (Term::Def(g), Term::Def(h)) => g == h,
        (Term::Lit(a), Term::Lit(b)) => a.same(b),
        (Term::IntTy, Term::IntTy) => true,
        (Term::StringTy, Term::StringTy) => true,
        (Term::HandleTy, Term::HandleTy) => true,
        (Term::IoTy(k, a), Term::IoTy(m, b)) => k == m && same_term(a, b),
        (Term::Prim(p, xs), Term::Prim(q, ys)) => p == q && same_all(xs, ys),
        (Term::Act(p, ps, xs), Term::Act(q, qs, ys)) => {
            p == q && same_all(ps, qs) && same_all(xs, ys)
        }
        (Term::Trap(a), Term::Trap(b)) => same_term(a, b),
        (Term::Tape(i), Term::Tape(j)) => i == j,
        _ => false,
    }
}

#[cycle(same_term)]
pub(crate) fn same_all(ones: &[Term], others: &[Term]) -> bool
    ensures { IsTrue result ↔ (terms ones.now ≡ terms others.now) }
{
    if ones.len() != others.len() {
        return false;
    }
    for (i, one) in ones.iter().enumerate() {
        if !same_term(one, &others[i]) {
            return false;
        }
    }
    true
}

#[cycle(same_term)]
fn same_branches(ones: &[Branch], others: &[Branch]) -> bool
    ensures { IsTrue result ↔ (branches ones.now ≡ branches others.now) }
{
    if ones.len() != others.len() {
        return false;
    }
    for (i, one) in ones.iter().enumerate() {
        if !same_branch(one, &others[i]) {
            return false;
        }
    }
    true
}

#[cycle(same_term)]
fn same_branch(one: &Branch, other: &Branch) -> bool
    ensures { IsTrue result ↔ (branch one.now ≡ branch other.now) }
{
    one.fields == other.fields && same_term(&one.body, &other.body)
}

#[cycle(same_term)]
fn same_case(one: &Case, other: &Case) -> bool
    ensures { IsTrue result ↔ (case one.now ≡ case other.now) }
{
    one.mult == other.mult
        && one.family == other.family
        && one.indices == other.indices
        && same_all(&one.params, &other.params)
        && same_term(&one.motive, &other.motive)
        && same_branches(&one.branches, &other.branches)
        && same_term(&one.scrutinee, &other.scrutinee)
}

#[cycle(same_term)]
fn same_delete(one: &Delete, other: &Delete) -> bool
    ensures { IsTrue result ↔ (delete one.now ≡ delete other.now) }
{
    one.mult == other.mult
        && same_term(&one.ty, &other.ty)
        && same_term(&one.point, &other.point)
        && same_term(&one.motive, &other.motive)
        && same_term(&one.branch, &other.branch)
        && same_term(&one.scrutinee, &other.scrutinee)
}
