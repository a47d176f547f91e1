//! Types whose equal values are the same value.

ghost use Rattle.std.specs.Prelude.{◌≡◌, true};
ghost use Rattle.ras_base.specs.Steps.ExactLemmas.{nat_exact};

/// A type whose `==` holds only for equal values, so that either of two such values can replace the
/// other.
pub trait ExactEq: Eq {
    ghost exact: { (one other : Self) → Self.eq one other ≡ true → one ≡ other };
}

impl ExactEq for u64 {
    ghost exact = { nat_exact };
}
