//! That bodies have one verdict.
ghost use Rattle.std.specs.Prelude.{ℕ, ◌≡◌, List};
ghost use Rattle.qc_event.specs.declared.table.Table.{Table};
ghost use Rattle.qc_codec.specs.declared.image.ImageFault.{ImageFault};
ghost use Rattle.qc_codec.specs.declared.past.Past.{Past};
ghost use Rattle.qc_journal.specs.Image.{HasRecords};
ghost use Rattle.qc_ledger.specs.Image.{IsFirstFault};
ghost use Rattle.qc_site.specs.Image.{IsCopyFault, AreMountableAsCopy};

/// The bodies of a copy's records have at most one first fault, and none where they can be mounted. So has an image.
/// What a mounting answers of the active disk is then the one fault that there is.
pub fn one_verdict()
    ensures one { (disk : ℕ) (table : Table) (past : Past) (limit : ℕ)
        → (bodies : List (List ℕ)) (fault other : ImageFault)
        → IsCopyFault disk table past limit bodies fault → IsCopyFault disk table past limit
        bodies other → other ≡ fault }
    ensures not_both { (disk : ℕ) (table : Table) (past : Past) (limit : ℕ)
        → (bodies : List (List ℕ)) (fault : ImageFault)
        → IsCopyFault disk table past limit bodies fault → AreMountableAsCopy disk table past
        limit bodies → ⊥ }
    ensures one_image { (disk : ℕ) (table : Table) (past : Past) (limit : ℕ)
        → (image : List ℕ) (fault other : ImageFault)
        → IsFirstFault (IsCopyFault disk table past limit) fault image
        → IsFirstFault (IsCopyFault disk table past limit) other image → other ≡ fault }
    ensures not_both_image { (disk : ℕ) (table : Table) (past : Past) (limit : ℕ)
        → (image : List ℕ) (fault : ImageFault) (bodies : List (List ℕ))
        → IsFirstFault (IsCopyFault disk table past limit) fault image
        → HasRecords bodies image → AreMountableAsCopy disk table past limit bodies → ⊥ }
{}
