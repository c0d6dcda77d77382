//! Slots that are filled, moved and turned round.

ghost use Rattle.std.specs.Prelude.{◌++◌, reverse, IfOk};
ghost use Rattle.qtt_implicit.specs.Matching.{fill_slot};
ghost use Rattle.qtt_implicit.specs.Slots.{AreSlots, IsSound, moved_slots, shared_tree, slot_list};

use crate::filling::slots::{Shared, Slots};
use crate::filling::trees::{deeper, placed};
use bumpalo::Bump;
use qtt_base::MemoryError;

/// The slots where this one is filled, if it was not and what is to fill it is known.
pub fn with_slot<'a>(
    slots: &'a Slots<'a>,
    arena: &'a Bump,
    index: u32,
    text: Shared<'a>,
) -> Result<&'a Slots<'a>, MemoryError>
    requires slots { IsSound slots.now }
    requires text { IsSound text.slots.now }
    ensures { IfOk result (λ r. AreSlots
        (fill_slot index (shared_tree text.entry) (slot_list slots.now)) r.now) }
{
    match slots {
        Slots::End => Ok(slots),
        Slots::Empty(older) => match index.checked_sub(1) {
            None => {
                let weight = text.weight()?;
                if weight.known {
                    let found = text.resolved()?;
                    placed(
                        arena,
                        Slots::Filled {
                            text: found,
                            weight,
                            older,
                        },
                    )
                } else {
                    Ok(slots)
                }
            }
            Some(index) => placed(arena, Slots::Empty(with_slot(older, arena, index, text)?)),
        },
        Slots::Filled {
            text: first,
            weight,
            older,
        } => match index.checked_sub(1) {
            None => Ok(slots),
            Some(index) => {
                let older = with_slot(older, arena, index, text)?;
                placed(
                    arena,
                    Slots::Filled {
                        text: *first,
                        weight: *weight,
                        older,
                    },
                )
            }
        },
    }
}

fn moved_along<'a>(
    slots: &'a Slots<'a>,
    arena: &'a Bump,
    by: u32,
) -> Result<&'a Slots<'a>, MemoryError>
    requires { IsSound slots.now }
    ensures { IfOk result (λ r. AreSlots (moved_slots by (slot_list slots.now)) r.now) }
{
    match slots {
        Slots::End => Ok(slots),
        Slots::Empty(older) => {
            let older = moved_along(older, arena, by)?;
            placed(arena, Slots::Empty(older))
        }
        Slots::Filled {
            text,
            weight,
            older,
        } => {
            let older = moved_along(older, arena, by)?;
            let text = Shared {
                tree: text.tree,
                slots: text.slots,
                rest: text.rest,
                moved: deeper(text.moved, by)?,
            };
            placed(
                arena,
                Slots::Filled {
                    text,
                    weight: *weight,
                    older,
                },
            )
        }
    }
}

/// The slots behind so many binders more.
pub fn moved<'a>(
    slots: &'a Slots<'a>,
    arena: &'a Bump,
    by: u32,
) -> Result<&'a Slots<'a>, MemoryError>
    requires { IsSound slots.now }
    ensures { IfOk result (λ r. AreSlots (moved_slots by (slot_list slots.now)) r.now) }
{
    if by == 0 {
        Ok(slots)
    } else {
        moved_along(slots, arena, by)
    }
}

/// Slots turned round, and behind them others.
pub fn turned<'a>(
    slots: &'a Slots<'a>,
    arena: &'a Bump,
    behind: &'a Slots<'a>,
) -> Result<&'a Slots<'a>, MemoryError>
    requires slots { IsSound slots.now }
    requires behind { IsSound behind.now }
    ensures { IfOk result (λ r. AreSlots (reverse (slot_list slots.now) ++ slot_list behind.now)
        r.now) }
{
    match slots {
        Slots::End => Ok(behind),
        Slots::Empty(older) => turned(older, arena, placed(arena, Slots::Empty(behind))?),
        Slots::Filled {
            text,
            weight,
            older,
        } => {
            let behind = placed(
                arena,
                Slots::Filled {
                    text: *text,
                    weight: *weight,
                    older: behind,
                },
            )?;
            turned(older, arena, behind)
        }
    }
}
