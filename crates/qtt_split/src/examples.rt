//! What the definitions say of small groups of clauses. Each function does nothing: its contract is
//! what was computed.

ghost use Rattle.qtt_split.specs.Rows.{TreeRows, MadeRows};
ghost use Rattle.qtt_split.specs.Bodies.{BodyRows, BodyRunRows};
ghost use Rattle.qtt_split.specs.Refused.{RefusedRows};

/// Case trees of groups of clauses, by their questions and by the relation.
pub fn trees_as_worked()
    ensures trees { TreeRows }
    ensures made { MadeRows }
{}

/// The bodies that trees are assembled to, and runs of some.
pub fn bodies_as_worked()
    ensures bodies { BodyRows }
    ensures runs { BodyRunRows }
{}

/// Each refusal of a group of clauses, with what it keeps, at its place.
pub fn refusals_as_worked()
    ensures { RefusedRows }
{}
