//! Text types.

ghost use Rattle.qtt_implicit.specs.Slots.{IsSound};
ghost use Rattle.qtt_implicit.specs.SoundSlots.{is_sound_prop};

use crate::filling::slots::{Shared, Slots};

/// A text type: a tree in which parts may be unknown. Parts are shared.
#[derive(Clone, Copy)]
pub struct TextType<'a> {
    pub shared: Shared<'a>,
    pub ghost sound: { IsSound shared.slots.now } by { is_sound_prop shared.slots.now },
}

/// The slots of a signature where its name is used, the newest first.
#[derive(Clone, Copy)]
pub struct OpenSlots<'a> {
    pub slots: &'a Slots<'a>,
    pub ghost sound: { IsSound slots.now } by { is_sound_prop slots.now },
}
