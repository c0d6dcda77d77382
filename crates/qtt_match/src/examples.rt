//! What the definitions say of small clauses. The function does nothing: its contract is what
//! was computed.

ghost use Rattle.qtt_match.specs.Rows.{MatchRows};

/// Clauses that overlap, in both orders; patterns of other families and other lengths; dot
/// patterns; and what variables stand for.
pub fn matches_as_worked()
    ensures { MatchRows }
{}
