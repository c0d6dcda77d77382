//! Types of a signature matched with the text types of arguments.

ghost use Rattle.std.specs.Prelude.{◌≡◌, nat_eq, IfOk};
ghost use Rattle.qtt_implicit.specs.Matching.{argument_count, fill_slot, matched as matched_with, matched_arguments as arguments_matched};
ghost use Rattle.qtt_implicit.specs.Nodes.{argument_row, node_tree};
ghost use Rattle.qtt_implicit.specs.TextTypes.{arguments_in, open_list, type_tree};

use crate::filling::changing::with_slot;
use crate::filling::text_type::{OpenSlots, TextType};
use crate::filling::trees::{Arguments, Node};
use bumpalo::Bump;
use qtt_base::MemoryError;
use qtt_syntax::Target;

fn same_count(first: &Arguments, second: &Arguments) -> bool
    ensures { result ≡ nat_eq (argument_count (argument_row first.now))
        (argument_count (argument_row second.now)) }
{
    match first {
        Arguments::End => match second {
            Arguments::End => true,
            Arguments::More { .. } => false,
        },
        Arguments::More { others: first, .. } => match second {
            Arguments::End => false,
            Arguments::More { others: second, .. } => same_count(first, second),
        },
    }
}

impl<'a> OpenSlots<'a> {
    /// The slots where this one is filled, if it was not and what is to fill it is known.
    fn filled(
        self,
        arena: &'a Bump,
        index: u32,
        text: TextType<'a>,
    ) -> Result<OpenSlots<'a>, MemoryError>
        ensures { IfOk result (λ s. open_list s ≡ fill_slot index (type_tree text.entry)
            (open_list self.entry)) }
    {
        Ok(OpenSlots {
            slots: with_slot(self.slots, arena, index, text.shared)?,
        })
    }
}

/// The slots where the type of a binder is matched with the text type of its argument.
#[cycle(matched)]
pub fn matched<'a>(
    pattern: &Node<'a>,
    arena: &'a Bump,
    text: TextType<'a>,
    slots: OpenSlots<'a>,
) -> Result<OpenSlots<'a>, MemoryError>
    ensures { IfOk result (λ s. open_list s ≡ matched_with (node_tree pattern.now)
        (type_tree text.entry) (open_list slots.entry)) }
{
    match pattern {
        Node::Name(used) => match used.target {
            Target::Local(index) => slots.filled(arena, index, text),
            Target::Global(_) | Target::Unknown => Ok(slots),
        },
        Node::Apply {
            function,
            arguments,
            ..
        } => match text.application()? {
            None => Ok(slots),
            Some(found) => {
                if same_count(arguments, found.arguments) {
                    let slots = matched(function, arena, found.function, slots)?;
                    matched_arguments(arguments, arena, found.arguments, found.function, slots)
                } else {
                    Ok(slots)
                }
            }
        },
        Node::Unknown(_)
        | Node::Number { .. }
        | Node::Text { .. }
        | Node::Type { .. }
        | Node::Hole { .. }
        | Node::The { .. }
        | Node::Pi { .. }
        | Node::Lambda { .. }
        | Node::Let { .. }
        | Node::Do { .. } => Ok(slots),
    }
}

/// The same for the arguments of two applications, of which the second ones stand where this
/// text type stands.
#[cycle(matched)]
fn matched_arguments<'a>(
    patterns: &Arguments<'a>,
    arena: &'a Bump,
    arguments: &'a Arguments<'a>,
    text: TextType<'a>,
    slots: OpenSlots<'a>,
) -> Result<OpenSlots<'a>, MemoryError>
    ensures { IfOk result (λ s. open_list s ≡ arguments_matched (argument_row patterns.now)
        (arguments_in text.entry.shared (argument_row arguments.now)) (open_list slots.entry)) }
{
    match patterns {
        Arguments::End => Ok(slots),
        Arguments::More {
            value: pattern,
            others: patterns,
            ..
        } => match arguments {
            Arguments::End => Ok(slots),
            Arguments::More { value, others, .. } => {
                let slots = matched(pattern, arena, text.at(value), slots)?;
                matched_arguments(patterns, arena, others, text, slots)
            }
        },
    }
}
