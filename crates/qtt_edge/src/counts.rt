//! Counts that end at the greatest number.

ghost use Rattle.std.specs.Prelude.{◌≡◌, ◌≤◌};
ghost use Rattle.qtt_edge.specs.Counts.{raised, Rose};

/// One more, or the same where the count stands at its end.
pub fn risen(count: u64) -> u64
    ensures exact { result ≡ raised count }
    ensures later { count ≤ result }
    ensures rose { Rose count result }
{
    count.saturating_add(1)
}
