//! The range of literals.

ghost use Rattle.std.specs.Prelude.{map};
ghost use Rattle.qtt_term.specs.Literals.{LiteralsInRange, AllInRange};
ghost use Rattle.qtt_term.specs.View.{term, terms, case, delete, branches, side_by_side};

use crate::term::{Branch, Case, Delete, Term};
use qtt_prims::Lit;

impl Term {
    /// Every literal of the term is in the range of 64 bits. This only reads them: the fact is
    /// the contract's.
    pub fn literals_in_range(&self)
        ensures { LiteralsInRange (term self.now) }
    {
        in_range(self)
    }
}

#[cycle(in_range)]
#[tactic(auto, using(crate::proofs::Ranged::ranged))]
fn in_range(source: &Term)
    ensures { LiteralsInRange (term source.now) }
{
    match source {
        Term::Pi(_, a, b) | Term::Lam(_, a, b) | Term::App(_, a, b) => {
            in_range(a);
            in_range(b)
        }
        Term::Fam(_, args) | Term::Prim(_, args) => all_in_range(args),
        Term::Con(_, first, then) | Term::Act(_, first, then) => {
            all_in_range(first);
            all_in_range(then)
        }
        Term::Case(case) => case_in_range(case),
        Term::Delete(delete) => delete_in_range(delete),
        Term::Lit(Lit::Int(value)) => {
            let _value = *value;
        }
        Term::IoTy(_, a) | Term::Trap(a) => in_range(a),
        _ => {}
    }
}

#[cycle(in_range)]
#[tactic(auto, using(crate::proofs::Ranged::ranged))]
fn all_in_range(sources: &[Term])
    ensures { AllInRange (side_by_side (terms sources.now)) }
{
    for source in sources {
        in_range(source);
    }
}

#[cycle(in_range)]
#[tactic(auto, using(crate::proofs::Ranged::ranged))]
fn branches_in_range(sources: &[Branch])
    ensures { AllInRange (side_by_side (map (λ b. b.1) (branches sources.now))) }
{
    for source in sources {
        in_range(&source.body);
    }
}

#[cycle(in_range)]
#[tactic(auto, using(crate::proofs::Ranged::ranged))]
fn case_in_range(source: &Case)
    ensures { LiteralsInRange (case source.now) }
{
    all_in_range(&source.params);
    in_range(&source.motive);
    branches_in_range(&source.branches);
    in_range(&source.scrutinee)
}

#[cycle(in_range)]
#[tactic(auto, using(crate::proofs::Ranged::ranged))]
fn delete_in_range(source: &Delete)
    ensures { LiteralsInRange (delete source.now) }
{
    in_range(&source.ty);
    in_range(&source.point);
    in_range(&source.motive);
    in_range(&source.branch);
    in_range(&source.scrutinee)
}
