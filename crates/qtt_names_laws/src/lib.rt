//! What the names of a text stand for, said by the text alone.
//!
//! What is looked up for a name is what the name sees at its place: the newest binder around it,
//! else an own item that stands earlier, else what the imports and Prim export; nothing is kind
//! 10 and more than one thing is kind 11 (`names_see_by_the_text`), and at each place it is one
//! of the three (`sight_is_a_function`). A text resolves to exactly the text that the rules relate
//! to it, and is refused for exactly the first fault in text order, of kinds 10, 11 and 12
//! (`resolved_by_the_text`). Each constructor name in a pattern of a text that resolved stands
//! for an own item before it or an exported one (`pattern_names_are_items`). Worked:
//! `sights_as_worked`, `texts_as_worked`, `heads_as_worked`.
//!
//! A theory: its lemmas may be cited.
#![tactic(auto)]

mod laws;

pub use laws::{
    heads_as_worked, names_see_by_the_text, pattern_names_are_items, resolved_by_the_text,
    sight_is_a_function, sights_as_worked, texts_as_worked,
};
