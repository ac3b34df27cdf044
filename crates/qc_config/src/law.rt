//! What sets of copies are, as a law.
ghost use Rattle.std.specs.Prelude.{ℕ, ◌≡◌, ◌<◌, ◌==◌, ◌||◌, Bool, false, List, length};
ghost use Rattle.qc_config.specs.Copies.{none, has, with};

/// Contracts see a set of copies as sixteen marks. These are a set of numbers below 16: the empty set has
/// none of them, a set with one more has that one and its own, and sets with the same members are the same.
pub fn marks_are_sets()
    ensures empty { (c : ℕ) → has none c ≡ false }
    ensures one_more { (set : List Bool) (c d : ℕ) → c < length set
        → has (with set c) d ≡ ((d == c) || has set d) }
    ensures same { (a b : List Bool) → length a ≡ length b
        → ((c : ℕ) → c < length a → has a c ≡ has b c) → a ≡ b }
{}
