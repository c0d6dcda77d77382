//! Laws of case trees. The function does nothing: its contract is the law.

ghost use Rattle.qtt_split.specs.Laws.{SplitsAreEnough};

/// A tree needs no more splits, one below another, than its clauses have constructor patterns.
pub fn splits_are_enough()
    ensures { SplitsAreEnough }
{}
