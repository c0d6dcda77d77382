//! Laws of definitions by clauses. No code stands here: each function does nothing, and its
//! contract is the law.
//!
//! A body that is accepted, within a budget or without one, goes on as its clauses say. Applied to
//! values of the definition's argument types, the erased ones included, it reaches the right side
//! of the first clause that fits, as this was elaborated at a leaf of the tree, with the values in
//! the places of its pattern variables; or a Trap, where no clause fits. So does each typed
//! application of the definition itself to values, where it has that body
//! (`laws::accepted_bodies_go_on`). A place that an equation solved holds its solution, which is
//! convertible to the value that stands there. This is so in the environment in which the body was
//! accepted, and in each larger one, as that of a whole program (`laws::environments_are_larger`).
//! The patterns of an accepted group name constructors (`laws::reached_are_named`), so an
//! environment is larger wherever these and all else stay (`laws::named_stay`).
//!
//! Each field of the values, one at 0 too, is to be a value. The environment is to have Prim,
//! closed bodies, and in each constructor's result a term for each index, as each well-formed one
//! has (`laws::well_formed_is_enough`). Without types the same is so where no split is of a family
//! with indices and a constructor stands wherever the tree looks; there no place is solved
//! (`laws::unsolved_values_stay`). The values may differ from those that the tree writes in the
//! parameters of constructors, which erasure drops (`laws::erases_alike`).
//!
//! Under it: both clause laws for each tree that the relation makes (`laws::plain_clause_law`,
//! `laws::typed_clause_law`), what a typed value of a split's family is (`laws::one_split`,
//! `laws::one_deletion`), that plans and bodies are made by the relation
//! (`laws::plans_are_made`, `laws::bodies_are_made`), and that no plan has more leaves than its
//! limit says (`laws::plans_are_within_limit`). Two programs are worked through the law:
//! `laws::append_as_worked`, `laws::solved_place_as_worked`.
//!
//! Not shown here: that a definition whose clauses the relation allows is accepted.
//!
//! There are no wrong bodies to refuse, since no body says anything.
//!
//! A theory: its lemmas may be cited.
#![tactic(auto)]

pub mod laws;
