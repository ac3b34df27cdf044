//! That a store's images have one verdict.
ghost use Rattle.std.specs.Prelude.{ℕ, ◌≡◌, List};
ghost use Rattle.qc_event.specs.declared.table.Table.{Table};
ghost use Rattle.qc_codec.specs.declared.image.BadImage.{BadImage};
ghost use Rattle.qc_opening.specs.Images.{AreSound, IsFirstFault};

/// The images of a store's disks have at most one first fault, and none where they are sound. What `mount_disks` answers
/// is then the one fault that there is.
pub fn one_verdict()
    ensures one { (table : Table) (limit : ℕ) (images : List (List ℕ)) (bad other : BadImage)
        → IsFirstFault table limit bad images → IsFirstFault table limit other images
        → other ≡ bad }
    ensures not_both { (table : Table) (limit : ℕ) (images : List (List ℕ)) (bad : BadImage)
        → IsFirstFault table limit bad images → AreSound table limit images → ⊥ }
{
    qc_site::one_verdict();
}
