//! What is printed is read again.
//!
//! The printed bytes of a text's tree are lexed and laid out as tokens of a text with the same
//! tree but for places (`printed_texts_are_read_again`, by `printed_words_are_read_again` and
//! `names_have_forms`).
//!
//! A theory: its lemmas may be cited.
#![tactic(auto)]

mod laws;

pub use laws::{names_have_forms, printed_texts_are_read_again, printed_words_are_read_again};
