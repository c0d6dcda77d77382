//! The laws of multiplicities and uses, each the contract of a function that
//! does nothing.

ghost use Rattle.std.specs.Prelude.{◌≡◌, ℕ, ◌<◌, List, ◌∷◌, length, slice_set};
ghost use Rattle.qtt_usage.specs.declared.mult.Mult.{Mult};
ghost use Rattle.qtt_usage.specs.declared.mult.Mult.TheVariants.{Zero, One, Many};
ghost use Rattle.qtt_usage.specs.Mult.{◌⊕◌, ◌⊙◌, join, ◌≼◌};
ghost use Rattle.qtt_usage.specs.Uses.{Key, unit, out};
ghost use Rattle.qtt_usage.specs.Usage.{usage_sum, usage_join, usage_scale, no_usage, usage_unit, use_of};

/// Sum and product are a commutative semiring.
pub fn multiplicities_are_a_semiring()
    ensures sum_zero { (a : Mult) → a ⊕ Zero ≡ a }
    ensures sum_commutes { (a b : Mult) → a ⊕ b ≡ b ⊕ a }
    ensures sum_associates { (a b c : Mult) → (a ⊕ b) ⊕ c ≡ a ⊕ (b ⊕ c) }

    ensures product_one { (a : Mult) → a ⊙ One ≡ a }
    ensures product_commutes { (a b : Mult) → a ⊙ b ≡ b ⊙ a }
    ensures product_associates { (a b c : Mult) → (a ⊙ b) ⊙ c ≡ a ⊙ (b ⊙ c) }

    ensures product_zero { (a : Mult) → a ⊙ Zero ≡ Zero }
    ensures distributes { (q a b : Mult) → q ⊙ (a ⊕ b) ≡ q ⊙ a ⊕ q ⊙ b }
{}

/// Permitted use is an order, many is its greatest use, and only 1 is at most
/// 1.
pub fn permitted_use_is_an_order()
    ensures reflexive { (a : Mult) → a ≼ a }
    ensures transitive { (a b c : Mult) → a ≼ b → b ≼ c → a ≼ c }
    ensures antisymmetric { (a b : Mult) → a ≼ b → b ≼ a → a ≡ b }

    ensures many_is_greatest { (a : Mult) → a ≼ Many }
    ensures only_one_below_one { (a : Mult) → a ≼ One → a ≡ One }
    ensures only_zero_below_zero { (a : Mult) → a ≼ Zero → a ≡ Zero }
{}

/// Sum, product and join keep the order.
pub fn order_is_kept()
    ensures by_sum { (a b c d : Mult) → a ≼ b → c ≼ d → a ⊕ c ≼ b ⊕ d }
    ensures by_product { (a b c d : Mult) → a ≼ b → c ≼ d → a ⊙ c ≼ b ⊙ d }
    ensures by_join { (a b c d : Mult) → a ≼ b → c ≼ d → join a c ≼ join b d }
{}

/// The join is the least use that is above both.
pub fn join_is_least_above()
    ensures left { (a b : Mult) → a ≼ join a b }
    ensures right { (a b : Mult) → b ≼ join a b }
    ensures least { (a b c : Mult) → a ≼ c → b ≼ c → join a b ≼ c }
{}

/// Where two branches use `u₁` and `u₂` themselves, and a value whose use is
/// `v` so often as `r₁` and `r₂`, the joins of both parts are enough for the
/// join of the whole.
pub fn join_law()
    ensures { (u₁ u₂ r₁ r₂ v : Mult) →
        join (u₁ ⊕ r₁ ⊙ v) (u₂ ⊕ r₂ ⊙ v) ≼ join u₁ u₂ ⊕ join r₁ r₂ ⊙ v }
{}

/// A list of uses is a use vector: what is done to lists is done to each entry.
pub fn lists_are_use_vectors()
    ensures zero { (n : ℕ) (x : Key) → use_of (no_usage n) x ≡ Zero }
    ensures one { (n i : ℕ) (x : Key) → i < n → use_of (usage_unit n i) x ≡ unit (Key.v i) x }
    ensures sum { (us ws : List Mult) (x : Key) → length us ≡ length ws
        → use_of (usage_sum us ws) x ≡ use_of us x ⊕ use_of ws x }
    ensures joined { (us ws : List Mult) (x : Key) → length us ≡ length ws
        → use_of (usage_join us ws) x ≡ join (use_of us x) (use_of ws x) }
    ensures scaled { (q : Mult) (us : List Mult) (x : Key) →
        use_of (usage_scale q us) x ≡ q ⊙ use_of us x }

    ensures newest { (u : Mult) (us : List Mult) → use_of (u ∷ us) (Key.v 0) ≡ u }
    ensures without_newest { (u : Mult) (us : List Mult) (x : Key) →
        out (use_of (u ∷ us)) x ≡ use_of us x }
    ensures taken { (us : List Mult) (i : ℕ) (x : Key)
        → use_of us x ≡ use_of us (Key.v i) ⊙ unit (Key.v i) x ⊕ use_of (slice_set us i Zero) x }
{}
