//! What is fixed of a term, beside its components.

ghost use Rattle.std.specs.Prelude.{◌≡◌, ◌↔◌, IsTrue, MatchOption, length, map};
ghost use Rattle.qtt_term.specs.View.{term, branches};
ghost use Rattle.qtt_envconv.specs.Components.{component_list};
ghost use Rattle.qtt_envconv.specs.Shapes.{form, fits, HasShape, case_form};

use crate::literal::Literal;
use qtt_base::GlobalId;
use qtt_prims::{ActKind, Primitive};
use qtt_term::{Branch, Case, ConId, IoKind, Term};
use qtt_usage::mult::Mult;

/// A form with its fixed parts.
#[derive(Clone, Copy)]
pub enum Shape<'a> {
    Sort(u32),
    Pi(Mult),
    Lam(Mult),
    App(Mult),
    Family(GlobalId),
    /// A constructor, and how many of its components are parameters.
    Constructor(ConId, usize),
    /// The fixed parts of this Case.
    Case(&'a Case),
    Delete(Mult),
    Definition(GlobalId),
    Literal(Literal<'a>),
    IntTy,
    StringTy,
    HandleTy,
    IoTy(IoKind),
    Prim(Primitive),
    /// An action, and how many of its components are type arguments.
    Act(ActKind, usize),
    Trap,
    Tape(u32),
}

impl<'a> Shape<'a> {
    /// The shape of a term; none of a variable.
    pub fn of(t: &'a Term) -> Option<Shape<'a>>
        ensures shaped { HasShape (term t.now) result }
        ensures whole { MatchOption result Unit
            (λ s. fits s (length (component_list (term t.now)))) }
    {
        match t {
            Term::Var(_) => None,
            Term::Sort(level) => Some(Shape::Sort(*level)),
            Term::Pi(mult, _, _) => Some(Shape::Pi(*mult)),
            Term::Lam(mult, _, _) => Some(Shape::Lam(*mult)),
            Term::App(mult, _, _) => Some(Shape::App(*mult)),
            Term::Fam(id, _) => Some(Shape::Family(*id)),
            Term::Con(id, params, _) => Some(Shape::Constructor(*id, params.len())),
            Term::Case(case) => Some(Shape::Case(case)),
            Term::Delete(delete) => Some(Shape::Delete(delete.mult)),
            Term::Def(id) => Some(Shape::Definition(*id)),
            Term::Lit(lit) => Some(Shape::Literal(Literal::of(lit))),
            Term::IntTy => Some(Shape::IntTy),
            Term::StringTy => Some(Shape::StringTy),
            Term::HandleTy => Some(Shape::HandleTy),
            Term::IoTy(kind, _) => Some(Shape::IoTy(*kind)),
            Term::Prim(prim, _) => Some(Shape::Prim(*prim)),
            Term::Act(kind, types, _) => Some(Shape::Act(*kind, types.len())),
            Term::Trap(_) => Some(Shape::Trap),
            Term::Tape(number) => Some(Shape::Tape(*number)),
        }
    }

    /// Whether both are the same form with the same fixed parts.
    pub fn same(self, other: Shape<'a>) -> bool
        ensures { IsTrue result ↔ (form self.entry ≡ form other.entry) }
    {
        match (self, other) {
            (Shape::Sort(i), Shape::Sort(j)) => i == j,
            (Shape::Pi(p), Shape::Pi(q)) => p == q,
            (Shape::Lam(p), Shape::Lam(q)) => p == q,
            (Shape::App(p), Shape::App(q)) => p == q,
            (Shape::Family(g), Shape::Family(h)) => g == h,
            (Shape::Constructor(g, m), Shape::Constructor(h, n)) => g == h && m == n,
            (Shape::Case(a), Shape::Case(b)) => same_branching(a, b),
            (Shape::Delete(p), Shape::Delete(q)) => p == q,
            (Shape::Definition(g), Shape::Definition(h)) => g == h,
            (Shape::Literal(a), Shape::Literal(b)) => a.same(b),
            (Shape::IntTy, Shape::IntTy) => true,
            (Shape::StringTy, Shape::StringTy) => true,
            (Shape::HandleTy, Shape::HandleTy) => true,
            (Shape::IoTy(k), Shape::IoTy(m)) => k == m,
            (Shape::Prim(p), Shape::Prim(q)) => p == q,
            (Shape::Act(p, m), Shape::Act(q, n)) => p == q && m == n,
            (Shape::Trap, Shape::Trap) => true,
            (Shape::Tape(i), Shape::Tape(j)) => i == j,
            _ => false,
        }
    }
}

fn same_branching(one: &Case, other: &Case) -> bool
    ensures { IsTrue result ↔ (case_form one.now ≡ case_form other.now) }
{
    one.mult == other.mult
        && one.family == other.family
        && one.indices == other.indices
        && one.params.len() == other.params.len()
        && same_fields(&one.branches, &other.branches)
}

/// Whether branches stand under the same numbers of binders.
fn same_fields(ones: &[Branch], others: &[Branch]) -> bool
    ensures { IsTrue result ↔
        (map (λ b. b.0) (branches ones.now) ≡ map (λ b. b.0) (branches others.now)) }
{
    if ones.len() != others.len() {
        return false;
    }
    for (i, one) in ones.iter().enumerate() {
        if one.fields != others[i].fields {
            return false;
        }
    }
    true
}
