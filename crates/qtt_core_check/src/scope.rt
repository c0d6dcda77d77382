//! Contexts, as the judgement goes under binders.

ghost use Rattle.std.specs.Prelude.{◌≡◌, ◌<◌, ◌+◌, IfOk, MatchOption, Some, None, slice_get, length};
ghost use Rattle.qtt_term.specs.View.{term};
ghost use Rattle.qtt_core_check.specs.Seen.{ctx};

use qtt_base::MemoryError;
use qtt_term::Term;
use qtt_usage::mult::Mult;

/// The binders around a term: one behind others, or several, the outermost first.
#[derive(Drop)]
pub enum Scope<'a> {
    Empty,
    Bound(&'a Scope<'a>, Mult, &'a Term),
    Several(&'a Scope<'a>, &'a [(Mult, Term)]),
}

impl<'a> Scope<'a> {
    /// The number of binders.
    pub fn depth(&self) -> Result<u32, MemoryError>
        ensures { IfOk result (λ n. n ≡ length (ctx self.now)) }
    {
        match self {
            Scope::Empty => Ok(0),
            Scope::Bound(outer, _, _) => deeper(outer.depth()?, 1),
            Scope::Several(outer, binders) => deeper(outer.depth()?, binders.len()),
        }
    }

    /// The multiplicity of a binder, and its type under the binders before it.
    pub fn entry(&self, index: u32) -> Option<(Mult, &Term)>
        ensures { MatchOption result (slice_get (ctx self.now) index ≡ None)
            (λ b. slice_get (ctx self.now) index ≡ Some (b.0, term b.1.now)) }
    {
        match self {
            Scope::Empty => None,
            Scope::Bound(outer, mult, ty) => {
                if index == 0 {
                    Some((*mult, *ty))
                } else {
                    outer.entry(index - 1)
                }
            }
            Scope::Several(outer, binders) => {
                let place = index as usize;
                if place < binders.len() {
                    let binder = &binders[binders.len() - 1 - place];
                    Some((binder.0, &binder.1))
                } else {
                    outer.entry(index - binders.len() as u32)
                }
            }
        }
    }
}

/// So many binders more.
fn deeper(depth: u32, more: usize) -> Result<u32, MemoryError>
    ensures { IfOk result (λ n. n ≡ depth + more) }
{
    let Ok(more) = u32::try_from(more) else {
        return Err(MemoryError);
    };
    match depth.checked_add(more) {
        Some(deeper) => Ok(deeper),
        None => Err(MemoryError),
    }
}
