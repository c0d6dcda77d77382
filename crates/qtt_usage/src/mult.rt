//! The multiplicities 0, 1 and many.

ghost use Rattle.std.specs.Prelude.{◌≡◌};
ghost use Rattle.qtt_usage.specs.Mult.{◌⊕◌, ◌⊙◌, join, fits};

/// How often a variable may be used, or is used (Atkey 2018; McBride 2016).
#[derive(Clone, Copy, Debug, Default, PartialEq, Eq)]
pub enum Mult {
    #[default]
    Zero,
    One,
    Many,
}

impl Mult {
    /// What two uses make together.
    pub fn add(self, other: Mult) -> Mult
        ensures { result ≡ self ⊕ other }
    {
        match (self, other) {
            (Mult::Zero, q) | (q, Mult::Zero) => q,
            _ => Mult::Many,
        }
    }

    /// A use inside what is itself used so often.
    pub fn mul(self, other: Mult) -> Mult
        ensures { result ≡ self ⊙ other }
    {
        match (self, other) {
            (Mult::Zero, _) | (_, Mult::Zero) => Mult::Zero,
            (Mult::One, q) => q,
            _ => Mult::Many,
        }
    }

    /// The use of two branches, one of which is taken.
    pub fn join(self, other: Mult) -> Mult
        ensures { result ≡ join self other }
    {
        match (self, other) {
            (Mult::Zero, Mult::Zero) => Mult::Zero,
            (Mult::One, Mult::One) => Mult::One,
            _ => Mult::Many,
        }
    }

    /// Whether a use is within a declaration: each fits itself, and all fit many.
    pub fn fits(used: Mult, declared: Mult) -> bool
        ensures { result ≡ fits used declared }
    {
        declared == Mult::Many || used == declared
    }
}

#[cfg(test)]
mod tests {
    use super::*;
    use Mult::{Many, One, Zero};

    #[test]
    fn tables(rt: HostRuntime) {
        for q in [Zero, One, Many] {
            assert_eq!(rt; Zero.add(q), q);
            assert_eq!(rt; Zero.mul(q), Zero);
            assert_eq!(rt; One.mul(q), q);
            assert_eq!(rt; q.join(q), q);
            assert!(rt; Mult::fits(q, q));
            assert!(rt; Mult::fits(q, Many));
        }
        assert_eq!(rt; One.add(One), Many);
        assert_eq!(rt; Zero.join(One), Many);
        assert!(rt; !Mult::fits(Zero, One));
        assert!(rt; !Mult::fits(Many, One));
    }
}
