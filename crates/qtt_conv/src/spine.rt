//! Terms taken apart at their heads, and one contraction after the other.

ghost use Rattle.std.specs.Prelude.{◌≡◌, None, IfOk};
ghost use Rattle.qtt_term.specs.Signature.{Env};
ghost use Rattle.qtt_term.specs.Question.{head_step};
ghost use Rattle.qtt_term.specs.Globals.{env as env_of};
ghost use Rattle.qtt_term.specs.View.{term};
ghost use Rattle.qtt_conv.specs.Frames.{plug_all};
ghost use Rattle.qtt_conv.specs.Spines.{Waits, whole, IsSettled, StepsTo};

use crate::contraction::{focus_contracted, frame_contracted};
use crate::frame::{Frame, taken_apart};
use qtt_base::MemoryError;
use qtt_term::{Globals, Term};
use std::alloc::Global;

/// A term: what stands where its head is, and the frames around it, the innermost last.
#[derive(Drop)]
pub struct Spine {
    focus: Term,
    frames: Vec<Frame>,
}

/// What a contraction toward the head made of a term, or the head.
#[derive(Drop)]
pub enum Step {
    Contracted(Spine),
    Head(Term),
}

impl Spine {
    /// A term taken apart.
    pub fn of(alloc: Global, t: &Term) -> Result<Spine, MemoryError>
        ensures whole { IfOk result (λ s. whole s ≡ term t.now) }
        ensures settled { IfOk result (λ s. IsSettled s) }
    {
        entered(alloc, Vec::new(alloc), t)
    }

    /// Makes one contraction toward the head, if one is left.
    pub fn step(self, alloc: Global, env: &Globals) -> Result<Step, MemoryError>
        requires { IsSettled self }
        ensures { IfOk result (λ s. StepsTo (env_of env.now) (whole self) s) }
    {
        let Spine { focus, frames } = self;
        match focus_contracted(alloc, env, &focus)? {
            Some(contracted) => Ok(Step::Contracted(resumed(alloc, frames, contracted)?)),
            None => frame_step(alloc, frames, focus),
        }
    }
}

/// A step where what stands in the innermost place does not contract by itself.
fn frame_step(alloc: Global, mut frames: Vec<Frame>, focus: Term) -> Result<Step, MemoryError>
    requires { Waits frames.items (term focus) }
    ensures { IfOk result (λ s. (E : Env) → head_step E (term focus) ≡ None →
        StepsTo E (plug_all frames.items (term focus)) s) }
{
    match frames.pop() {
        Some(frame) => match frame_contracted(alloc, &frame, &focus)? {
            Some(contracted) => Ok(Step::Contracted(resumed(alloc, frames, contracted)?)),
            None => {
                let inner = frame.plugged(alloc, focus)?;
                Ok(Step::Head(rebuilt(alloc, frames, inner)?))
            }
        },
        None => Ok(Step::Head(focus)),
    }
}

/// The term with what a contraction gave in the innermost place. A literal goes back into its
/// frame, since a primitive goes on past it.
fn resumed(alloc: Global, mut frames: Vec<Frame>, contracted: Term) -> Result<Spine, MemoryError>
    ensures whole { IfOk result (λ s. whole s ≡ plug_all frames.items (term contracted)) }
    ensures settled { IfOk result (λ s. IsSettled s) }
{
    match &contracted {
        Term::Lit(_) => match frames.pop() {
            Some(frame) => {
                let inner = frame.plugged(alloc, contracted)?;
                entered(alloc, frames, &inner)
            }
            None => entered(alloc, frames, &contracted),
        },
        other => entered(alloc, frames, other),
    }
}

/// A term with frames around it, taken apart.
fn entered(alloc: Global, mut frames: Vec<Frame>, t: &Term) -> Result<Spine, MemoryError>
    requires { Waits frames.items (term t.now) }
    ensures whole { IfOk result (λ s. whole s ≡ plug_all frames.items (term t.now)) }
    ensures settled { IfOk result (λ s. IsSettled s) }
{
    let mut inner = t;
    while let Some((frame, component)) = taken_apart(alloc, inner)? {
        frames.push(frame)?;
        inner = component;
    }
    Ok(Spine {
        focus: inner.copy(alloc)?,
        frames,
    })
}

/// The whole term.
fn rebuilt(alloc: Global, mut frames: Vec<Frame>, inner: Term) -> Result<Term, MemoryError>
    ensures { IfOk result (λ t. term t ≡ plug_all frames.items (term inner)) }
{
    let mut inner = inner;
    while let Some(frame) = frames.pop() {
        inner = frame.plugged(alloc, inner)?;
    }
    Ok(inner)
}
