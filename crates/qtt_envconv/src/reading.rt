//! Terms built from what questions hold.

ghost use Rattle.std.specs.Prelude.{◌≡◌, ◌+◌, ◌<◌, ◌++◌, IfOk, OnOk};
ghost use Rattle.qtt_term.specs.View.{term, terms};
ghost use Rattle.qtt_envconv.specs.Nodes.{node as node_of};
ghost use Rattle.qtt_envconv.specs.Tasks.{done, finished, reads, effort, work, IsDoable, AreDoable};

use crate::assembly::assembled;
use crate::node::Node;
use crate::opening::Opened;
use crate::shape::Shape;
use bumpalo::Bump;
use qtt_base::MemoryError;
use qtt_term::Term;
use std::alloc::Global;

/// What is still to be done.
#[derive(Clone, Copy)]
pub enum Task<'a> {
    /// The term of a node is built.
    Read(Node<'a>),
    /// So many terms that were built last become the components of a term of this shape.
    Assemble(Shape<'a>, usize),
}

impl<'a> Node<'a> {
    /// The term.
    pub fn term(self, alloc: Global, arena: &'a Bump) -> Result<Term, MemoryError>
        ensures { IfOk result (λ t. term t ≡ node_of self.entry) }
    {
        let mut tasks = vec![in alloc; Task::Read(self)]?;
        let mut built = Vec::new(alloc);
        while let Some(task) = tasks.pop() {
            perform(alloc, arena, &mut tasks, &mut built, task)?;
        }
        Ok(built.pop().unwrap())
    }
}

/// Does a task, or puts simpler ones in its place.
fn perform<'a>(
    alloc: Global,
    arena: &'a Bump,
    tasks: &mut Vec<Task<'a>>,
    built: &mut Vec<Term>,
    task: Task<'a>,
) -> Result<(), MemoryError>
    requires { IsDoable task (terms built.old.items) }
    ensures makes { OnOk result (finished tasks.new.items (terms built.new.items) ≡
        finished tasks.old.items (done task.entry (terms built.old.items))) }
    ensures doable { AreDoable tasks.old.items (done task.entry (terms built.old.items)) →
        OnOk result (AreDoable tasks.new.items (terms built.new.items)) }
    ensures less { OnOk result (work tasks.new.items < effort task.entry + work tasks.old.items) }
{
    match task {
        Task::Read(node) => match node.opened(alloc, arena)? {
            Opened::Variable(index) => Ok(built.push(Term::Var(index))?),
            Opened::Form(shape, parts) => {
                tasks.push(Task::Assemble(shape, parts.len()))?;
                push_reads(tasks, parts)
            }
        },
        Task::Assemble(shape, count) => {
            let parts = built.split_off(built.len() - count)?;
            Ok(built.push(assembled(alloc, shape, parts)?)?)
        }
    }
}

/// Has these read, the first one first.
fn push_reads<'a>(tasks: &mut Vec<Task<'a>>, mut parts: Vec<Node<'a>>) -> Result<(), MemoryError>
    ensures { OnOk result (tasks.new.items ≡ tasks.old.items ++ reads parts.entry.items) }
{
    while let Some(part) = parts.pop() {
        tasks.push(Task::Read(part))?;
    }
    Ok(())
}
