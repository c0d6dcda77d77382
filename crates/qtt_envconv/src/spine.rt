//! Closures taken apart at their heads, and one contraction after the other.

ghost use Rattle.std.specs.Prelude.{◌≡◌, ◌+◌, map, length, None, IfOk};
ghost use Rattle.qtt_term.specs.Signature.{Env};
ghost use Rattle.qtt_term.specs.Contraction.{literal_term};
ghost use Rattle.qtt_term.specs.Question.{head_step, weight};
ghost use Rattle.qtt_term.specs.Globals.{env as env_of};
ghost use Rattle.qtt_term.specs.View.{term};
ghost use Rattle.qtt_envconv.specs.Closures.{closure as closure_of, IsForm};
ghost use Rattle.qtt_envconv.specs.Frames.{plug, plug_all, all_behind, focus as focus_of, reduct as reduct_of, AreFrames, HasStopped, IsCallOf, IsFocus, TakesNone, Waits};
ghost use Rattle.qtt_envconv.specs.Nodes.{node as node_of, over_in, IsReady};
ghost use Rattle.qtt_envconv.specs.Shapes.{literal as literal_of};
ghost use Rattle.qtt_envconv.specs.Spines.{whole, IsSettled, PassesTo, StepsTo};

use crate::closure::{Closure, Referent, placed};
use crate::contraction::{Reduct, focus_contracted, frame_contracted};
use crate::frame::{Frame, Past, taken_apart};
use crate::literal::Literal;
use crate::node::{Node, Stopped};
use bumpalo::Bump;
use qtt_base::MemoryError;
use qtt_term::{Globals, Term};
use std::alloc::Global;

/// What stands where the head of a term is.
#[derive(Drop)]
pub enum Focus<'a> {
    Variable(u32),
    Literal(Literal<'a>),
    /// Code that is no variable and no literal, and takes the head of no component.
    Closure(Closure<'a>),
    /// A primitive, all of whose arguments came to these literals.
    Call(Closure<'a>, Vec<Literal<'a>>),
}

/// A term: what stands where its head is, and the frames around it, the innermost last.
#[derive(Drop)]
pub struct Spine<'a> {
    focus: Focus<'a>,
    frames: Vec<Frame<'a>>,
}

/// What a contraction toward the head made of a term, or the head.
#[derive(Drop)]
pub enum Step<'a> {
    Contracted(Spine<'a>),
    Head(Node<'a>),
}

/// What comes of a literal with frames around it.
#[derive(Drop)]
enum Passed<'a> {
    On(Vec<Frame<'a>>, Closure<'a>),
    Settled(Spine<'a>),
}

impl<'a> Spine<'a> {
    /// A closure taken apart.
    pub fn of(
        alloc: Global,
        arena: &'a Bump,
        closure: Closure<'a>,
    ) -> Result<Spine<'a>, MemoryError>
        ensures whole { IfOk result (λ s. whole s ≡ closure_of closure.entry) }
        ensures settled { IfOk result (λ s. IsSettled s) }
    {
        entered(alloc, arena, Vec::new(alloc), closure)
    }

    /// Makes one contraction toward the head, if one is left.
    pub fn step(
        self,
        alloc: Global,
        arena: &'a Bump,
        env: &'a Globals,
    ) -> Result<Step<'a>, MemoryError>
        requires { IsSettled self }
        ensures { IfOk result (λ s. StepsTo (env_of env.now) (whole self.entry) s) }
    {
        let Spine { focus, frames } = self;
        match focus_contracted(alloc, arena, env, &focus)? {
            Some(reduct) => Ok(Step::Contracted(resumed(alloc, arena, frames, reduct)?)),
            None => frame_step(alloc, arena, frames, focus),
        }
    }
}

/// A step where what stands in the innermost place does not contract by itself.
fn frame_step<'a>(
    alloc: Global,
    arena: &'a Bump,
    mut frames: Vec<Frame<'a>>,
    focus: Focus<'a>,
) -> Result<Step<'a>, MemoryError>
    requires focus { IsFocus focus }
    requires frames { AreFrames frames.items }
    requires waits { Waits frames.items (focus_of focus) }
    ensures { IfOk result (λ s. (E : Env) → head_step E (focus_of focus.entry) ≡ None →
        StepsTo E (plug_all frames.entry.items (focus_of focus.entry)) s) }
{
    match frames.pop() {
        Some(frame) => match frame_contracted(arena, &frame, &focus)? {
            Some(closure) => Ok(Step::Contracted(entered(alloc, arena, frames, closure)?)),
            None => {
                let inner = stopped(arena, frame, head_of(arena, focus)?)?;
                Ok(Step::Head(rebuilt(arena, frames, inner)?))
            }
        },
        None => Ok(Step::Head(head_of(arena, focus)?)),
    }
}

/// The term with what a contraction gave in the innermost place.
fn resumed<'a>(
    alloc: Global,
    arena: &'a Bump,
    frames: Vec<Frame<'a>>,
    reduct: Reduct<'a>,
) -> Result<Spine<'a>, MemoryError>
    requires { AreFrames frames.items }
    ensures whole { IfOk result (λ s. whole s ≡ plug_all frames.entry.items
        (reduct_of reduct.entry)) }
    ensures settled { IfOk result (λ s. IsSettled s) }
{
    match reduct {
        Reduct::Closure(closure) => entered(alloc, arena, frames, closure),
        Reduct::Literal(literal) => match gone_past(frames, literal)? {
            Passed::On(frames, next) => entered(alloc, arena, frames, next),
            Passed::Settled(spine) => Ok(spine),
        },
    }
}

/// A closure with frames around it, taken apart.
fn entered<'a>(
    alloc: Global,
    arena: &'a Bump,
    mut frames: Vec<Frame<'a>>,
    closure: Closure<'a>,
) -> Result<Spine<'a>, MemoryError>
    requires { AreFrames frames.items }
    ensures whole { IfOk result (λ s. whole s ≡ plug_all frames.entry.items
        (closure_of closure.entry)) }
    ensures settled { IfOk result (λ s. IsSettled s) }
{
    let mut inner = closure;
    loop {
        let closure = match inner.referent(arena)? {
            Referent::Closure(closure) => closure,
            Referent::Variable(index) => {
                let focus = Focus::Variable(index);
                return Ok(Spine { focus, frames });
            }
        };
        match taken_apart(alloc, closure)? {
            Some((frame, component)) => {
                frames.push(frame)?;
                inner = component;
            }
            None => match at_rest(alloc, frames, closure)? {
                Passed::On(more, next) => {
                    frames = more;
                    inner = next;
                }
                Passed::Settled(spine) => return Ok(spine),
            },
        }
    }
}

/// A closure that takes the head of no component, with frames around it.
fn at_rest<'a>(
    alloc: Global,
    frames: Vec<Frame<'a>>,
    closure: Closure<'a>,
) -> Result<Passed<'a>, MemoryError>
    requires form { IsForm (term closure.code.now) }
    requires none { TakesNone (term closure.code.now) }
    requires frames { AreFrames frames.items }
    ensures { IfOk result (λ p. PassesTo
        (weight (closure_of closure.entry) + all_behind frames.entry.items)
        (plug_all frames.entry.items (closure_of closure.entry)) p) }
{
    match closure.code {
        Term::Lit(literal) => gone_past(frames, Literal::of(literal)),
        Term::Prim(_, _) => {
            let focus = Focus::Call(closure, Vec::new(alloc));
            Ok(Passed::Settled(Spine { focus, frames }))
        }
        _ => {
            let focus = Focus::Closure(closure);
            Ok(Passed::Settled(Spine { focus, frames }))
        }
    }
}

/// A literal with frames around it: a primitive goes on past it.
fn gone_past<'a>(
    mut frames: Vec<Frame<'a>>,
    literal: Literal<'a>,
) -> Result<Passed<'a>, MemoryError>
    requires { AreFrames frames.items }
    ensures { IfOk result (λ p. PassesTo (1 + all_behind frames.entry.items)
        (plug_all frames.entry.items (literal_term (literal_of literal.entry))) p) }
{
    match frames.pop() {
        Some(frame) => match frame.past(literal)? {
            Past::Next(frame, next) => {
                frames.push(frame)?;
                Ok(Passed::On(frames, next))
            }
            Past::Last(closure, literals) => {
                let focus = Focus::Call(closure, literals);
                Ok(Passed::Settled(Spine { focus, frames }))
            }
            Past::Kept(frame) => {
                frames.push(frame)?;
                let focus = Focus::Literal(literal);
                Ok(Passed::Settled(Spine { focus, frames }))
            }
        },
        None => {
            let focus = Focus::Literal(literal);
            Ok(Passed::Settled(Spine { focus, frames }))
        }
    }
}

/// The head that a focus is.
fn head_of<'a>(arena: &'a Bump, focus: Focus<'a>) -> Result<Node<'a>, MemoryError>
    requires { IsFocus focus }
    ensures means { IfOk result (λ h. node_of h ≡ focus_of focus.entry) }
    ensures ready { (E : Env) → head_step E (focus_of focus.entry) ≡ None →
        IfOk result (λ h. IsReady E h) }
{
    match focus {
        Focus::Variable(index) => Ok(Node::Variable(index)),
        Focus::Literal(literal) => Ok(Node::Literal(literal)),
        Focus::Closure(closure) => Ok(Node::Closure(closure)),
        Focus::Call(closure, literals) => called(arena, closure, literals),
    }
}

/// A primitive at literals.
fn called<'a>(
    arena: &'a Bump,
    closure: Closure<'a>,
    mut literals: Vec<Literal<'a>>,
) -> Result<Node<'a>, MemoryError>
    requires { IsCallOf (length literals.items) (term closure.code.now) }
    ensures means { IfOk result (λ h. node_of h ≡ over_in (map literal_of literals.entry.items)
        (closure_of closure.entry)) }
    ensures ready { (E : Env) → head_step E (over_in (map literal_of literals.entry.items)
        (closure_of closure.entry)) ≡ None → IfOk result (λ h. IsReady E h) }
{
    match literals.pop() {
        Some(last) => {
            let place = literals.len();
            let frame = Frame {
                closure,
                literals,
                place,
            };
            stopped(arena, frame, Node::Literal(last))
        }
        None => Ok(Node::Closure(closure)),
    }
}

/// A frame with a head in its place.
fn stopped<'a>(arena: &'a Bump, frame: Frame<'a>, inner: Node<'a>) -> Result<Node<'a>, MemoryError>
    ensures means { IfOk result (λ h. node_of h ≡ plug frame.entry (node_of inner.entry)) }
    ensures ready { (E : Env) → head_step E (plug frame.entry (node_of inner.entry)) ≡ None →
        IsReady E inner.entry → IfOk result (λ h. IsReady E h) }
{
    Ok(Node::Stopped(Stopped {
        closure: frame.closure,
        literals: arena.try_alloc_slice_copy(&frame.literals)?,
        place: frame.place,
        inner: placed(arena, inner)?,
    }))
}

/// Frames around a head.
fn rebuilt<'a>(
    arena: &'a Bump,
    mut frames: Vec<Frame<'a>>,
    inner: Node<'a>,
) -> Result<Node<'a>, MemoryError>
    requires { AreFrames frames.items }
    ensures means { IfOk result (λ h. node_of h ≡ plug_all frames.entry.items
        (node_of inner.entry)) }
    ensures ready { (E : Env) → HasStopped E (node_of inner.entry) → IsReady E inner.entry →
        IfOk result (λ h. IsReady E h) }
{
    let mut head = inner;
    while let Some(frame) = frames.pop() {
        head = stopped(arena, frame, head)?;
    }
    Ok(head)
}
