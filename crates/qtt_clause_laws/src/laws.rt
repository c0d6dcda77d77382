//! Laws of groups of clauses. Each function does nothing: its contract is the law.

ghost use Rattle.qtt_term.specs.Signature.{Env};
ghost use Rattle.qtt_term.specs.Environment.{WellFormed};
ghost use Rattle.qtt_erase.specs.Erasure.{Slots};
ghost use Rattle.qtt_split.specs.Laws.{PlainClauseLaw, TypedClauseLaw, AcceptedIsClosed, BodiesAreMade};
ghost use Rattle.qtt_clause_laws.specs.OneSplit.{OneSplit, OneDeletion};
ghost use Rattle.qtt_clause_laws.specs.Planned.{PlansAreMade};
ghost use Rattle.qtt_clause_laws.specs.Counted.{PlansAreWithinLimit};
ghost use Rattle.qtt_clause_laws.specs.Larger.{EnvironmentsAreLarger};
ghost use Rattle.qtt_clause_laws.specs.Named.{NamedStay, ReachedAreNamed};
ghost use Rattle.qtt_clause_laws.specs.Accepted.{AcceptedBodiesGoOn, Enough, UnsolvedValuesStay};
ghost use Rattle.qtt_clause_laws.specs.Erased.{ErasesAlike};
ghost use Rattle.qtt_clause_laws.specs.Worked.{AppendWorked, SolvedWorked};

/// The clause law without types: a tree whose split families have no indices leads to the right
/// side of the first clause that fits, wherever a constructor stands where the tree looks.
pub fn plain_clause_law()
    ensures { PlainClauseLaw }
{}

/// There no place is solved, so that pattern variables stand for the values that were given.
pub fn unsolved_values_stay()
    ensures { UnsolvedValuesStay }
{}

/// Terms that differ in the parameters of constructors alone have one erasure, and so have right
/// sides over them.
pub fn erases_alike()
    ensures { (E : Env) (Γ : Slots) → ErasesAlike E Γ }
{}

/// One split, with types: a value of the split's family meets a constructor that does not clash,
/// and where this is solved, each solution is convertible to the value that it stands for.
pub fn one_split()
    ensures { OneSplit }
{}

/// One deletion, with types: a value of Eq is a Refl, and its point is convertible to the index.
pub fn one_deletion()
    ensures { OneDeletion }
{}

/// The clause law with types, for families with indices and for deletions too.
pub fn typed_clause_law()
    ensures { TypedClauseLaw }
{}

/// What is planned, within a budget or without one, is made by the relation, with whatever right
/// sides at its leaves, under binders that are the definition's argument types up to conversion.
pub fn plans_are_made()
    ensures { PlansAreMade }
{}

/// What is planned, within a budget or without one, has no more leaves than its limit says, where
/// a constructor that clashes and a place where no clause is left count as one each.
pub fn plans_are_within_limit()
    ensures { PlansAreWithinLimit }
{}

/// What the core judgement accepts under no variables mentions none.
pub fn accepted_is_closed()
    ensures { (E : Env) → AcceptedIsClosed E }
{}

/// A body that is accepted, within a budget or without one, is assembled from a tree that the
/// relation makes, with the right sides as they are elaborated at its leaves.
pub fn bodies_are_made()
    ensures { BodiesAreMade }
{}

/// An environment is larger, as the next law asks, where a definition is given its body, and where
/// definitions and families are added whose constructors no pattern names.
pub fn environments_are_larger()
    ensures { EnvironmentsAreLarger }
{}

/// Each clause of an accepted tree has a leaf, so that the names in its patterns stand for
/// constructors.
pub fn reached_are_named()
    ensures { ReachedAreNamed }
{}

/// For clauses whose patterns name constructors an environment is larger wherever what is there
/// stays, and ids of constructors stand for the same ones.
pub fn named_stay()
    ensures { NamedStay }
{}

/// A well-formed environment has what the next law asks of environments.
pub fn well_formed_is_enough()
    ensures { (E : Env) → WellFormed E → Enough E }
{}

/// So both clause laws hold of each body that is accepted, over arguments of its own type, and of
/// each typed application of a definition that has the body, in each larger environment. The body
/// has its definition's type, and each split its family's number of indices.
pub fn accepted_bodies_go_on()
    ensures { AcceptedBodiesGoOn }
{}

/// The law worked through: two vectors of one number each are values of the argument types of
/// `append`; its body, applied to them, and `append` itself go on as its second clause.
pub fn append_as_worked()
    ensures { AppendWorked }
{}

/// A clause with a variable over a place that an equation solves: what is reached holds the
/// solution, where the value holds what is convertible to it.
pub fn solved_place_as_worked()
    ensures { SolvedWorked }
{}
