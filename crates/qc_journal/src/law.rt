//! That an image says one thing.
ghost use Rattle.std.specs.Prelude.{◌≡◌, ◌<◌, ◌⊎◌, ℕ, List, All};
ghost use Rattle.qc_journal.specs.Image.{HasRecords, IsBroken};

/// An image of bytes has records or is broken, and it is not both, has no other records and is broken at no
/// other place.
pub fn one_reading()
    ensures some { (image : List ℕ) → All (λ byte. byte < 256) image
        → ((bodies : List (List ℕ)) × HasRecords bodies image)
        ⊎ ((place : ℕ) × IsBroken place image) }
    ensures not_both { (image : List ℕ) (bodies : List (List ℕ)) (place : ℕ)
        → HasRecords bodies image → IsBroken place image → ⊥ }
    ensures records { (image : List ℕ) (bodies others : List (List ℕ)) → HasRecords bodies image
        → HasRecords others image → others ≡ bodies }
    ensures place { (image : List ℕ) (place other : ℕ) → IsBroken place image → IsBroken other image
        → other ≡ place }
{}
