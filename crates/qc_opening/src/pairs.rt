//! What a store's pairs of disks keep stands beside its history, as a law.
ghost use Rattle.std.specs.Prelude.{ℕ, ◌≡◌, ◌+◌, ◌≤◌, List, [], length, slice_index_or, Option, Some};
ghost use Rattle.qc_config.specs.Val.{Datum};
ghost use Rattle.qc_config.specs.declared.tuple.Tuple.{Tuple};
ghost use Rattle.qc_event.specs.declared.table.Table.{Table};
ghost use Rattle.qc_event.specs.History.{Past, limit};
ghost use Rattle.qc_event.specs.Legal.{Legal};
ghost use Rattle.qc_event.specs.Sound.{IsSound};
ghost use Rattle.qc_event.specs.Tables.{base_of, setting_of};
ghost use Rattle.qc_refine.specs.Pairs.{RestoreInPairs, StandInPairs, StandInPairsWithin};
ghost use Rattle.qc_refine.specs.Standing.{IsOfEpoch};
ghost use Rattle.qc_opening.specs.Mountings.{CarryNext};
ghost use Rattle.qc_opening.specs.SinceFolds.{TellSinceFolds};
ghost use Rattle.qc_opening.specs.Pairs.{AreCutOffInPairs, AreLeftByFolds, AreLeftInPairs, HaveNoGrantsInPairs, MountedInPairs};

/// A store is mounted over pairs of disks, and runs from what these restore: of each pair it mounts the active disk, and
/// writes on that alone. Its history is legal, is no longer than a desk's may be, and has tops of the mounting's epoch
/// alone. Each active disk keeps, behind the records of the mounting, what the history tells. Once each top has its end,
/// what each copy holds may be folded into the other disk of its pair, and then the ledger's pair, too. A fold may be cut
/// off at any moment; a disk into which none was begun keeps the records that it had.
///
/// Then images of these disks, one of each, stand in pairs beside the history, each pair with at most one record that it
/// does not tell yet (`stands`). Mountings over images that stand in pairs, folded or not, may be cut off, any number of
/// times. The next one that is not starts with tuples that carry the serial machine's values, after the history and at
/// most the commits of tops that may come next (`restarts`). So do tuples that any images restore which restore what some
/// do that stand in pairs (`carries`). What a mounting starts with is what the images restore
/// (`restores`), also where pairs of an older format were folded first (`renewed`), and one that is cut off leaves images
/// that restore the same (`cut_off`). A mounting over disks and
/// spares that are empty, or of a store that was just made, starts with the table's own tuples (`first`).
pub fn kept_pairs_stand()
    ensures stands { (table : Table) (told : ℕ → Option (List ℕ)) (records : ℕ → List (List ℕ))
        → (epoch : ℕ) (base : List (List Tuple)) (m : MountedInPairs table told records epoch base)
        → (past : Past) (images : List (List ℕ))
        → Legal (setting_of table base) past → length past ≤ limit → IsOfEpoch epoch past
        → AreLeftByFolds m past images
        → ∥ StandInPairsWithin 1 table base epoch past images ∥₁ }
    ensures restarts { (table : Table) (base : List (List Tuple)) (epoch : ℕ) (past : Past)
        → (images last : List (List ℕ)) (later : List (List (List ℕ))) (values : List Datum)
        → (records : ℕ → List (List ℕ)) (later_epoch : ℕ) (later_base : List (List Tuple))
        → StandInPairs table base epoch past images
        → Legal (setting_of table base) past → IsSound (setting_of table base) values
        → AreLeftInPairs table images later last
        → MountedInPairs table (λ place. Some (slice_index_or last place [])) records later_epoch
        later_base
        → CarryNext table values past later_base }
    ensures carries { (table : Table) (base : List (List Tuple)) (epoch : ℕ) (past : Past)
        → (standing images : List (List ℕ)) (values : List Datum) (tuples start : List (List Tuple))
        → StandInPairs table base epoch past standing
        → Legal (setting_of table base) past → IsSound (setting_of table base) values
        → RestoreInPairs table standing tuples → RestoreInPairs table images tuples
        → RestoreInPairs table images start → CarryNext table values past start }
    ensures restores { (table : Table) (images : List (List ℕ)) (records : ℕ → List (List ℕ))
        → (epoch : ℕ) (base : List (List Tuple))
        → MountedInPairs table (λ place. Some (slice_index_or images place [])) records epoch base
        → length images ≡ table.copies + 1 + (table.copies + 1)
        → RestoreInPairs table images base }
    ensures renewed { (table : Table) (images : List (List ℕ)) (now : ℕ → Option (List ℕ))
        → TellSinceFolds table (λ place. Some (slice_index_or images place [])) now
        → (records : ℕ → List (List ℕ)) (epoch : ℕ) (base : List (List Tuple))
        → MountedInPairs table now records epoch base
        → length images ≡ table.copies + 1 + (table.copies + 1)
        → RestoreInPairs table images base }
    ensures cut_off { (table : Table) (images later : List (List ℕ))
        → AreCutOffInPairs table images later → (tuples : List (List Tuple))
        → RestoreInPairs table images tuples → RestoreInPairs table later tuples }
    ensures first { (table : Table) (told : ℕ → Option (List ℕ)) (records : ℕ → List (List ℕ))
        → (epoch : ℕ) (base : List (List Tuple)) → MountedInPairs table told records epoch base
        → HaveNoGrantsInPairs table told → base ≡ base_of table }
{}
