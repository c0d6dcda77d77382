//! What declarations are judged by.

use qtt_base::Name;
use qtt_bidi::Elaborator;

/// An elaborator over the environment before an item, and the name of the item's module.
#[derive(Drop)]
pub struct Declarer<'a, C> {
    pub elaborator: Elaborator<'a, C>,
    pub home: &'a Name,
}
