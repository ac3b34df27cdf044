//! That bodies have one verdict.
ghost use Rattle.std.specs.Prelude.{ℕ, ◌≡◌, List};
ghost use Rattle.qc_event.specs.declared.table.Table.{Table};
ghost use Rattle.qc_codec.specs.declared.image.ImageFault.{ImageFault};
ghost use Rattle.qc_journal.specs.Image.{HasRecords};
ghost use Rattle.qc_ledger.specs.Image.{IsLedgerFault, IsFirstFault, AreMountableAsLedger};

/// The bodies of a ledger's records have at most one first fault, and none where they can be mounted. So has an image.
/// What a mounting answers of the active disk is then the one fault that there is.
pub fn one_verdict()
    ensures one { (disk : ℕ) (table : Table) (limit : ℕ) (bodies : List (List ℕ))
        (fault other : ImageFault) → IsLedgerFault disk table limit bodies fault
        → IsLedgerFault disk table limit bodies other → other ≡ fault }
    ensures not_both { (disk : ℕ) (table : Table) (limit : ℕ) (bodies : List (List ℕ))
        (fault : ImageFault) → IsLedgerFault disk table limit bodies fault
        → AreMountableAsLedger disk table limit bodies → ⊥ }
    ensures one_image { (disk : ℕ) (table : Table) (limit : ℕ) (image : List ℕ)
        (fault other : ImageFault) → IsFirstFault (IsLedgerFault disk table limit) fault image
        → IsFirstFault (IsLedgerFault disk table limit) other image → other ≡ fault }
    ensures not_both_image { (disk : ℕ) (table : Table) (limit : ℕ) (image : List ℕ)
        (fault : ImageFault) (bodies : List (List ℕ))
        → IsFirstFault (IsLedgerFault disk table limit) fault image → HasRecords bodies image
        → AreMountableAsLedger disk table limit bodies → ⊥ }
{}
