//! The binders that a definition's type opens.

ghost use Rattle.std.specs.Prelude.{◌≡◌, [], option_map};
ghost use Rattle.qtt_term.specs.Forms.{as_function as function_at};
ghost use Rattle.qtt_term.specs.View.{term};
ghost use Rattle.qtt_split.specs.Calls.{Answers, opened_of, function_of};
ghost use Rattle.qtt_split.specs.Plan.{opened as opens};

use crate::planner::{Planner, Test, refused};
use qtt_rules::{Detail, ElabError};
use qtt_term::telescopes::number;
use qtt_term::{Converter, Term};
use qtt_usage::mult::Mult;

/// The binders of a type, the outermost first, and what stands under them.
#[derive(Drop)]
pub struct Opened {
    pub binders: Vec<(Mult, Term)>,
    pub goal: Term,
}

/// The parts of a function type.
#[derive(Drop)]
struct FunctionType {
    mult: Mult,
    domain: Term,
    codomain: Term,
}

/// The function type that a head is.
fn as_function(mut head: Term) -> Option<FunctionType>
    ensures { option_map function_of result ≡ function_at (term head) }
{
    match &mut head {
        Term::Pi(mult, domain, codomain) => Some(FunctionType {
            mult: *mult,
            domain: domain.take(),
            codomain: codomain.take(),
        }),
        _ => None,
    }
}

impl<'a, C: Converter> Planner<'a, C> {
    /// So many binders of a closed type, by its head each time.
    pub fn opened(&self, count: usize, ty: &Term) -> Result<Opened, ElabError>
        ensures { Answers self.now (opens self.now.first count [] (term ty.now)) opened_of result }
    {
        let alloc = self.unifier.alloc;
        let mut binders = Vec::with_capacity(alloc, count)?;
        let mut goal = ty.copy(alloc)?;
        for place in 0..count {
            let depth = number(place)?;
            let head = self.head(depth, &goal, self.first, Test::Opens)?;
            let Some(function) = as_function(head) else {
                let kept = Detail::NotAFunction { depth, ty: goal };
                return Err(refused(kept, self.first, Test::Opens));
            };
            binders.push((function.mult, function.domain))?;
            goal = function.codomain;
        }
        Ok(Opened { binders, goal })
    }
}
