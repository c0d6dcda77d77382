//! Arguments that are given to the binders of a signature.

ghost use Rattle.std.specs.Prelude.{◌≡◌, map, IfOk};
ghost use Rattle.qtt_implicit.specs.Matching.{codomains as codomains_of};
ghost use Rattle.qtt_implicit.specs.Judging.{AreJudged};
ghost use Rattle.qtt_implicit.specs.Nodes.{node_tree};
ghost use Rattle.qtt_implicit.specs.TextTypes.{given_list, open_list, type_tree};
ghost use Rattle.qtt_implicit.specs.Walk.{given_to as slots_and_type, given_tree, is_written, not_in_braces};

use crate::filling::matching::matched;
use crate::filling::parts::Givens;
use crate::filling::text_type::{OpenSlots, TextType};
use crate::filling::trees::Node;
use bumpalo::Bump;
use qtt_base::MemoryError;
use qtt_syntax::Mark;

/// The slots of a signature behind its arguments, and the text type.
#[derive(Clone, Copy)]
pub struct Judged<'a> {
    pub slots: OpenSlots<'a>,
    pub ty: TextType<'a>,
}

pub fn was_written(mark: Mark) -> bool
    ensures { result ≡ is_written mark }
{
    match mark {
        Mark::Written => true,
        Mark::Braced | Mark::Inserted => false,
    }
}

/// The type of an application to all arguments.
pub fn codomains<'a>(
    givens: &'a Givens<'a>,
    arena: &'a Bump,
    text: TextType<'a>,
) -> Result<TextType<'a>, MemoryError>
    ensures { IfOk result (λ t. type_tree t ≡ codomains_of (type_tree text.entry)
        (map given_tree (given_list givens.now))) }
{
    match givens {
        Givens::End => Ok(text),
        Givens::More { given, others } => {
            codomains(others, arena, text.codomain(arena, given.tree)?)
        }
    }
}

/// The type of an application to the arguments that are not in braces.
fn written_codomains<'a>(
    givens: &'a Givens<'a>,
    arena: &'a Bump,
    text: TextType<'a>,
) -> Result<TextType<'a>, MemoryError>
    ensures { IfOk result (λ t. type_tree t ≡ codomains_of (type_tree text.entry)
        (map given_tree (not_in_braces (given_list givens.now)))) }
{
    match givens {
        Givens::End => Ok(text),
        Givens::More { given, others } => {
            if was_written(given.mark) {
                written_codomains(others, arena, text.codomain(arena, given.tree)?)
            } else {
                written_codomains(others, arena, text)
            }
        }
    }
}

/// The arguments that are not in braces, given in turn to the binders of a chain.
pub fn given_to<'a>(
    givens: &'a Givens<'a>,
    arena: &'a Bump,
    chain: &'a Node<'a>,
    slots: OpenSlots<'a>,
) -> Result<Judged<'a>, MemoryError>
    ensures { IfOk result (λ r. AreJudged r (slots_and_type (open_list slots.entry)
        (node_tree chain.now) (not_in_braces (given_list givens.now)))) }
{
    match givens {
        Givens::End => Ok(Judged {
            slots,
            ty: slots.instance(chain),
        }),
        Givens::More { given, others } => {
            if was_written(given.mark) {
                match chain {
                    Node::Pi {
                        domain,
                        codomain,
                        ..
                    } => {
                        let slots = matched(domain, arena, given.ty, slots)?;
                        given_to(others, arena, codomain, slots.with(arena, given.tree)?)
                    }
                    _ => Ok(Judged {
                        slots,
                        ty: written_codomains(givens, arena, slots.instance(chain))?,
                    }),
                }
            } else {
                given_to(others, arena, chain, slots)
            }
        }
    }
}
