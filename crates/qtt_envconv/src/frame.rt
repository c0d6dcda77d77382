//! What stands around the component whose head a term takes.

ghost use Rattle.std.specs.Prelude.{◌≡◌, ◌+◌, ◌<◌, [], map, length, Some, IfOk, MatchOption};
ghost use Rattle.qtt_term.specs.declared.term.Case.{out-Case};
ghost use Rattle.qtt_term.specs.Contraction.{literal_term};
ghost use Rattle.qtt_term.specs.Question.{scrutinee_place, weight};
ghost use Rattle.qtt_term.specs.View.{term, branches};
ghost use Rattle.qtt_confluence.specs.Heads.{parts};
ghost use Rattle.qtt_envconv.specs.Closures.{closure as closure_of};
ghost use Rattle.qtt_envconv.specs.Frames.{plug, behind, component, Takes, IsFrame, TakesNone, GoesPast};
ghost use Rattle.qtt_envconv.specs.Shapes.{literal as literal_of};

use crate::closure::Closure;
use crate::literal::Literal;
use qtt_base::MemoryError;
use qtt_term::{Case, Term};
use std::alloc::Global;

/// A closure but for the component with this number, whose head it takes. The components before
/// it, where it is an argument of a primitive, came to these literals.
#[derive(Drop)]
pub struct Frame<'a> {
    pub closure: Closure<'a>,
    pub literals: Vec<Literal<'a>>,
    pub place: usize,
}

/// What comes of a literal in the place of a frame.
#[derive(Drop)]
pub enum Past<'a> {
    /// The head of the primitive's next argument is taken.
    Next(Frame<'a>, Closure<'a>),
    /// All arguments of the primitive are literals.
    Last(Closure<'a>, Vec<Literal<'a>>),
    /// The frame is not of a primitive.
    Kept(Frame<'a>),
}

/// The frame around the component whose head a closure takes, and that component; none where the
/// head of no component is taken.
pub fn taken_apart<'a>(
    alloc: Global,
    closure: Closure<'a>,
) -> Result<Option<(Frame<'a>, Closure<'a>)>, MemoryError>
    ensures { IfOk result (λ o. MatchOption o (TakesNone (term closure.entry.code.now))
        (λ r. IsFrame r.0 × (plug r.0 (closure_of r.1) ≡ closure_of closure.entry) ×
        (weight (closure_of r.1) + behind r.0 < weight (closure_of closure.entry)))) }
{
    match component_taken(closure.code)? {
        Some((place, component)) => {
            let frame = Frame {
                closure,
                literals: Vec::new(alloc),
                place,
            };
            Ok(Some((frame, closure.at(component))))
        }
        None => Ok(None),
    }
}

/// The component whose head a term takes, with its number; none where the head of no component is
/// taken.
fn component_taken(t: &Term) -> Result<Option<(usize, &Term)>, MemoryError>
    ensures { IfOk result (λ o. MatchOption o (TakesNone (term t.now))
        (λ r. Takes (term t.now) [] r.0 × (component r.0 (parts (term t.now)) ≡ Some
        (term r.1.now)))) }
{
    match t {
        Term::App(_, function, _) => Ok(Some((0, function))),
        Term::Case(case) => Ok(Some((scrutinee_place(case)?, &case.scrutinee))),
        Term::Delete(delete) => Ok(Some((4, &delete.scrutinee))),
        Term::Prim(_, arguments) => match arguments.first() {
            Some(first) => Ok(Some((0, first))),
            None => Ok(None),
        },
        _ => Ok(None),
    }
}

/// The number of the scrutinee among the components, behind parameters, motive and branches.
fn scrutinee_place(case: &Case) -> Result<usize, MemoryError>
    ensures { IfOk result (λ k. k ≡ scrutinee_place (length (out-Case case.now).params.items)
        (map (λ b. b.0) (branches (out-Case case.now).branches.items))) }
{
    let Some(place) = case.params.len().checked_add(case.branches.len()) else {
        return Err(MemoryError);
    };
    match place.checked_add(1) {
        Some(place) => Ok(place),
        None => Err(MemoryError),
    }
}

impl<'a> Frame<'a> {
    /// What comes of a literal in the frame's place.
    pub fn past(self, literal: Literal<'a>) -> Result<Past<'a>, MemoryError>
        requires { IsFrame self }
        ensures { IfOk result (λ p. GoesPast self.entry
            (literal_term (literal_of literal.entry)) p) }
    {
        match self.closure.code {
            Term::Prim(_, arguments) => {
                let mut literals = self.literals;
                literals.push(literal)?;
                let closure = self.closure;
                match arguments.get(literals.len()) {
                    Some(next) => {
                        let place = literals.len();
                        let frame = Frame {
                            closure,
                            literals,
                            place,
                        };
                        Ok(Past::Next(frame, closure.at(next)))
                    }
                    None => Ok(Past::Last(closure, literals)),
                }
            }
            _ => Ok(Past::Kept(self)),
        }
    }
}
