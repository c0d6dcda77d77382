//! How judgements conclude, read in the relation: convertible or not, and no head of another form.
//!
//! A judgement is a list of questions: for the head of a term, for its reading, and whether two
//! terms compare Equal. In an environment whose bodies are closed, what such a list ends with, by
//! contraction and comparison, it concludes with (`laws::endings_conclude`): a comparison goes on
//! as its terms are convertible or not, and a question for a head goes on with a weak head normal
//! form that is convertible to its term and whose form every such has. Weak head normal forms and
//! readings are defined by what a form waits for: they are where the contractions toward a head
//! and toward a reading end (`normal_forms_are_so`); and a term has a head in this sense exactly
//! where contraction comes to one (`heads_are_so`).
//!
//! So where the head of a term is no function type, no function type is convertible to it, and
//! likewise universes, families and actions (`no_other_form`); a list that looks for a form fails
//! only where no term of the form is convertible, and a list that compares answers as its terms
//! are convertible or not (`refusals_are_so`).
//!
//! Lists that ask the same of convertible terms conclude alike (`one_conclusion`), and questions
//! for a form and comparisons are such lists (`forms_are_alike`). So is the core judgement, where
//! bodies are closed: no term is both refused and given a type, and the types that it is given are
//! convertible (`judgement_is_one`).
//!
//! The worked examples, `f x` where `f : Int` among them, are `definitions_tell`.
//!
//! A theory: its lemmas may be cited.
#![tactic(auto)]

pub mod laws;
