//! Phrases over lists of tokens, and readers that are exact for them.
//!
//! A theory: its lemmas may be cited. It has no functions.
#![tactic(auto)]
