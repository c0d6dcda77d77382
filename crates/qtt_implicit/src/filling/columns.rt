//! What is known of the types of columns.

use crate::filling::text_type::OpenSlots;
use crate::filling::trees::Node;

/// What is known of the types of columns.
#[derive(Clone, Copy)]
pub enum Columns<'a> {
    /// Nothing.
    Untold,
    /// The rest of a chain of binders, where patterns stand for the earlier ones.
    Told {
        slots: OpenSlots<'a>,
        chain: &'a Node<'a>,
    },
}
