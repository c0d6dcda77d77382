//! Free variables.

ghost use Rattle.std.specs.Prelude.{◌≡◌, ◌↔◌, [], IsTrue, map};
ghost use Rattle.qtt_term.specs.Substitution.{Closed, reach as reach_of, reaches};
ghost use Rattle.qtt_term.specs.View.{term, terms, case, delete, branches, side_by_side};

use crate::term::{Branch, Case, Delete, Term};

impl Term {
    /// Whether no variable is free.
    pub fn is_closed(&self) -> bool
        ensures { IsTrue result ↔ Closed (term self.now) }
    {
        reach(self) == 0
    }
}

/// One more than the greatest variable that is free, and 0 where none is.
#[cycle(reach)]
#[tactic(auto, using(crate::proofs::Reach::reached))]
fn reach(source: &Term) -> u64
    ensures { result ≡ reach_of (term source.now) }
{
    match source {
        Term::Var(i) => *i as u64 + 1,
        Term::Pi(_, a, b) | Term::Lam(_, a, b) => {
            let outer = reach(a);
            outer.max(reach(b).saturating_sub(1))
        }
        Term::App(_, a, b) => {
            let function = reach(a);
            function.max(reach(b))
        }
        Term::Fam(_, args) | Term::Prim(_, args) => reach_all(args),
        Term::Con(_, first, then) | Term::Act(_, first, then) => {
            let front = reach_all(first);
            front.max(reach_all(then))
        }
        Term::Case(case) => reach_case(case),
        Term::Delete(delete) => reach_delete(delete),
        Term::IoTy(_, a) | Term::Trap(a) => reach(a),
        _ => 0,
    }
}

#[cycle(reach)]
#[tactic(auto, using(crate::proofs::Reach::reached))]
fn reach_all(sources: &[Term]) -> u64
    ensures { result ≡ reaches [] (side_by_side (terms sources.now)) }
{
    let mut most = 0;
    for source in sources {
        most = most.max(reach(source));
    }
    most
}

#[cycle(reach)]
#[tactic(auto, using(crate::proofs::Reach::reached))]
fn reach_branches(sources: &[Branch]) -> u64
    ensures { result ≡ reaches (map (λ b. b.0) (branches sources.now))
        (side_by_side (map (λ b. b.1) (branches sources.now))) }
{
    let mut most = 0;
    for source in sources {
        most = most.max(reach(&source.body).saturating_sub(source.fields as u64));
    }
    most
}

#[cycle(reach)]
#[tactic(auto, using(crate::proofs::Reach::reached))]
fn reach_case(source: &Case) -> u64
    ensures { result ≡ reach_of (case source.now) }
{
    let params = reach_all(&source.params);
    let motive = reach(&source.motive).saturating_sub(source.indices as u64 + 1);
    let branches = reach_branches(&source.branches);
    let scrutinee = reach(&source.scrutinee);
    params.max(motive).max(branches).max(scrutinee)
}

#[cycle(reach)]
#[tactic(auto, using(crate::proofs::Reach::reached))]
fn reach_delete(source: &Delete) -> u64
    ensures { result ≡ reach_of (delete source.now) }
{
    let ty = reach(&source.ty);
    let point = reach(&source.point);
    let motive = reach(&source.motive).saturating_sub(1);
    let branch = reach(&source.branch);
    let scrutinee = reach(&source.scrutinee);
    ty.max(point).max(motive).max(branch).max(scrutinee)
}
