//! Applications of names, in which slots are filled.

ghost use Rattle.std.specs.Prelude.{◌≡◌, ◌++◌, ◌+◌, Some, None, List, drop, length, map, min, replicate, reverse, take, IfOk, IsTrue, MatchResult};
ghost use Rattle.qtt_syntax.specs.Tree.{Argument, arguments as arguments_of};
ghost use Rattle.qtt_syntax.specs.Tree.Arguments.{argument_and};
ghost use Rattle.qtt_implicit.specs.Copies.{placing};
ghost use Rattle.qtt_implicit.specs.Moving.{changed};
ghost use Rattle.qtt_implicit.specs.Nodes.{argument_row, node_tree};
ghost use Rattle.qtt_implicit.specs.Slots.{IsSound, shared_tree, slot_list};
ghost use Rattle.qtt_implicit.specs.Solving.{IsInserted, first_unsolved, in_front, solved};
ghost use Rattle.qtt_implicit.specs.TextTypes.{given_list, open_list};
ghost use Rattle.qtt_implicit.specs.Walk.{application as application_of, behind_binders as tree_behind, binder_names, given_argument, in_braces, not_in_braces, slot_argument};

use crate::filling::copying::Copying;
use crate::filling::givens::was_written;
use crate::filling::parts::Givens;
use crate::filling::slots::{Rest, Shared, Slots};
use crate::filling::text_type::OpenSlots;
use crate::filling::trees::{Arguments, Node, inside, placed};
use bumpalo::Bump;
use qtt_base::{MemoryError, Name, Span};
use qtt_syntax::Mark;

/// What is behind the first binders of a chain.
pub fn behind_binders<'a>(chain: &'a Node<'a>, count: u32) -> &'a Node<'a>
    ensures { node_tree result.now ≡ tree_behind count (node_tree chain.now) }
{
    match count.checked_sub(1) {
        None => chain,
        Some(count) => match chain {
            Node::Pi { codomain, .. } => behind_binders(codomain, count),
            _ => chain,
        },
    }
}

/// How many arguments are in braces.
pub fn count_braced(givens: &Givens) -> Result<u32, MemoryError>
    ensures { IfOk result (λ n. n ≡ length (in_braces (given_list givens.now))) }
{
    match givens {
        Givens::End => Ok(0),
        Givens::More { given, others } => {
            let others = count_braced(others)?;
            match given.mark {
                Mark::Braced => inside(others),
                Mark::Written | Mark::Inserted => Ok(others),
            }
        }
    }
}

/// More slots that are not filled.
#[tactic(auto, using(crate::proofs::Braces::one_more_empty))]
pub fn empty_slots<'a>(
    mut slots: OpenSlots<'a>,
    arena: &'a Bump,
    count: u32,
) -> Result<OpenSlots<'a>, MemoryError>
    ensures { IfOk result (λ s. open_list s ≡ replicate count None ++ open_list slots.entry) }
{
    for _ in 0..count {
        slots = slots.with_empty(arena)?;
    }
    Ok(slots)
}

/// More slots, in which the expressions in braces stand.
pub fn braced_slots<'a>(
    givens: &'a Givens<'a>,
    arena: &'a Bump,
    slots: OpenSlots<'a>,
) -> Result<OpenSlots<'a>, MemoryError>
    ensures { IfOk result (λ s. open_list s ≡ reverse (map (λ t. Some t)
        (in_braces (given_list givens.now))) ++ open_list slots.entry) }
{
    match givens {
        Givens::End => Ok(slots),
        Givens::More { given, others } => match given.mark {
            Mark::Braced => braced_slots(others, arena, slots.with(arena, given.tree)?),
            Mark::Written | Mark::Inserted => braced_slots(others, arena, slots),
        },
    }
}

/// The slots behind the first ones.
pub fn behind_slots<'a>(slots: &'a Slots<'a>, count: u32) -> &'a Slots<'a>
    ensures same { slot_list result.now ≡ drop count (slot_list slots.now) }
    ensures sound { IsSound slots.now → IsSound result.now }
{
    match count.checked_sub(1) {
        None => slots,
        Some(count) => match slots {
            Slots::End => slots,
            Slots::Empty(older) => behind_slots(older, count),
            Slots::Filled { older, .. } => behind_slots(older, count),
        },
    }
}

/// How many nodes are inserted into the slots of the binders in braces, of which so many were
/// written; or the first binder whose slot is not filled.
pub fn inserted<'a>(
    chain: &'a Node<'a>,
    braces: u32,
    slots: &Slots<'a>,
    written: u32,
) -> Result<u64, &'a Name>
    requires { IsSound slots.now }
    ensures ok { IfOk result (λ n. IsInserted n written (binder_names braces (node_tree chain.now))
        (take braces (slot_list slots.now))) }
    ensures solved { MatchResult result
        (λ _. first_unsolved (binder_names braces (node_tree chain.now))
        (take braces (slot_list slots.now)) ≡ None)
        (λ x. first_unsolved (binder_names braces (node_tree chain.now))
        (take braces (slot_list slots.now)) ≡ Some x.now) }
{
    match braces.checked_sub(1) {
        None => Ok(0),
        Some(braces) => match chain {
            Node::Pi { name, codomain, .. } => match slots {
                Slots::End => Ok(0),
                Slots::Empty(_) => Err(name),
                Slots::Filled { weight, older, .. } => {
                    let others = inserted(codomain, braces, older, written.saturating_sub(1))?;
                    if written == 0 {
                        Ok(weight.nodes.saturating_add(others).min(1_000_001))
                    } else {
                        Ok(others)
                    }
                }
            },
            _ => Ok(0),
        },
    }
}

impl<'a> Shared<'a> {
    /// Whether nothing is put in and nothing is moved.
    fn is_plain(self) -> bool
        ensures { IsTrue result → shared_tree self.entry ≡ node_tree self.entry.tree.now }
    {
        match self.slots {
            Slots::End => match self.rest {
                Rest::Outer(by) => by == 0 && self.moved == 0,
                Rest::Unknown => false,
            },
            Slots::Empty(_) | Slots::Filled { .. } => false,
        }
    }

    /// The expression in a slot, each place this one if it is given.
    fn copy(self, arena: &'a Bump, place: Option<Span>) -> Result<&'a Node<'a>, MemoryError>
        ensures { IfOk result (λ t. node_tree t.now ≡ changed (placing place) 0
            (shared_tree self.entry)) }
    {
        let copying = Copying {
            arena,
            slots: self.slots,
            rest: self.rest,
            moved: self.moved,
            place,
        };
        copying.node(self.tree, 0)
    }

    /// The expression in a slot.
    fn expression(self, arena: &'a Bump) -> Result<&'a Node<'a>, MemoryError>
        ensures { IfOk result (λ t. node_tree t.now ≡ shared_tree self.entry) }
    {
        if self.is_plain() {
            Ok(self.tree)
        } else {
            self.copy(arena, None)
        }
    }

    /// The argument that fills a slot, where so many that were written are still to come, and
    /// behind it others.
    fn argument(
        self,
        arena: &'a Bump,
        written: u32,
        place: Span,
        others: &'a Arguments<'a>,
    ) -> Result<&'a Arguments<'a>, MemoryError>
        ensures { IfOk result (λ r. argument_row r.now ≡ argument_and
            (slot_argument place written (shared_tree self.entry)) (argument_row others.now)) }
    {
        if written == 0 {
            let value = self.copy(arena, Some(place))?;
            placed(
                arena,
                Arguments::More {
                    mark: Mark::Inserted,
                    value,
                    others,
                },
            )
        } else {
            let value = self.expression(arena)?;
            placed(
                arena,
                Arguments::More {
                    mark: Mark::Braced,
                    value,
                    others,
                },
            )
        }
    }
}

/// The arguments in the slots of the binders in braces, and behind them others.
pub fn filled_row<'a>(
    chain: &'a Node<'a>,
    arena: &'a Bump,
    braces: u32,
    slots: &'a Slots<'a>,
    written: u32,
    place: Span,
    others: &'a Arguments<'a>,
) -> Result<&'a Arguments<'a>, MemoryError>
    ensures { IfOk result (λ r. argument_row r.now ≡ in_front (solved place written
        (binder_names braces (node_tree chain.now)) (take braces (slot_list slots.now)))
        (argument_row others.now)) }
{
    match braces.checked_sub(1) {
        None => Ok(others),
        Some(braces) => match chain {
            Node::Pi { codomain, .. } => match slots {
                Slots::End | Slots::Empty(_) => Ok(others),
                Slots::Filled { text, older, .. } => {
                    let later = written.saturating_sub(1);
                    let others = filled_row(codomain, arena, braces, older, later, place, others)?;
                    text.argument(arena, written, place, others)
                }
            },
            _ => Ok(others),
        },
    }
}

/// The arguments that are not in braces.
pub fn written_row<'a>(
    givens: &'a Givens<'a>,
    arena: &'a Bump,
) -> Result<&'a Arguments<'a>, MemoryError>
    ensures { IfOk result (λ r. argument_row r.now ≡ arguments_of (map given_argument
        (not_in_braces (given_list givens.now)))) }
{
    match givens {
        Givens::End => placed(arena, Arguments::End),
        Givens::More { given, others } => {
            let others = written_row(others, arena)?;
            if was_written(given.mark) {
                placed(
                    arena,
                    Arguments::More {
                        mark: given.mark,
                        value: given.tree,
                        others,
                    },
                )
            } else {
                Ok(others)
            }
        }
    }
}

/// All arguments.
pub fn given_row<'a>(
    givens: &'a Givens<'a>,
    arena: &'a Bump,
) -> Result<&'a Arguments<'a>, MemoryError>
    ensures { IfOk result (λ r. argument_row r.now ≡ arguments_of (map given_argument
        (given_list givens.now))) }
{
    match givens {
        Givens::End => placed(arena, Arguments::End),
        Givens::More { given, others } => {
            let others = given_row(others, arena)?;
            placed(
                arena,
                Arguments::More {
                    mark: given.mark,
                    value: given.tree,
                    others,
                },
            )
        }
    }
}

/// An application, or what is applied where there is no argument.
pub fn application<'a>(
    function: &'a Node<'a>,
    arena: &'a Bump,
    arguments: &'a Arguments<'a>,
    span: Span,
) -> Result<&'a Node<'a>, MemoryError>
    ensures { IfOk result (λ t. (xs : List Argument) →
        argument_row arguments.now ≡ arguments_of xs →
        node_tree t.now ≡ application_of (node_tree function.now) xs span) }
{
    match arguments {
        Arguments::End => Ok(function),
        Arguments::More { .. } => placed(
            arena,
            Node::Apply {
                function,
                arguments,
                span,
            },
        ),
    }
}
