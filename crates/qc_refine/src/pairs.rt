//! What pairs of disks restore after a crash, as a law over all legal histories.
ghost use Rattle.std.specs.Prelude.{ℕ, ◌≡◌, List, []};
ghost use Rattle.qc_codec.specs.declared.past.Logged.{Logged};
ghost use Rattle.qc_config.specs.Val.{Datum};
ghost use Rattle.qc_config.specs.declared.tuple.Tuple.{Tuple};
ghost use Rattle.qc_event.specs.declared.table.Table.{Table};
ghost use Rattle.qc_event.specs.Base.{Setting};
ghost use Rattle.qc_event.specs.History.{Past};
ghost use Rattle.qc_event.specs.Legal.{Legal};
ghost use Rattle.qc_event.specs.Sound.{IsSound};
ghost use Rattle.qc_event.specs.Tables.{base_of, setting_of};
ghost use Rattle.qc_serial.specs.Serial.{final_values};
ghost use Rattle.qc_refine.specs.Images.{CarryFinal};
ghost use Rattle.qc_refine.specs.Pairs.{AreFreshPairs, RestoreInPairs, StandInPairs};
ghost use Rattle.qc_refine.specs.Restored.{Kept, restored_setting};
ghost use Rattle.qc_refine.specs.Standing.{AreNext, StandBeside, committed_too};

/// What a crash leaves on disks restores a prefix of the serial order: every top that the history tells committed,
/// and after these at most the tops whose records the ledger has and the history does not tell yet. With their
/// commits the history is legal (`legal`), and what is restored is sound for the serial machine's values after it.
///
/// `records` says it of lists of records, and `images` of bytes: where images of pairs stand beside a legal history
/// over sound start tuples, each pair open or folded, a run may start from what they restore, for its start is sound
/// again. The value of the greatest version over all copies is the serial machine's (Gifford). They restore one base,
/// and there is one. Fresh images stand beside the empty history.
///
/// That the images of a run's pairs stand beside its history is a premise here. The clause `images_stand` of
/// `qc_run`'s `run` gives it.
pub fn restored_pairs_are_serial()
    ensures legal { (setting : Setting) (past : Past) (more : List Logged)
        → Legal setting past → AreNext past more → Legal setting (committed_too past more) }
    ensures records { (first : List (List Tuple)) (epoch : ℕ) (setting : Setting)
        → (values : List Datum) (before now : Kept) (past : Past)
        → Legal setting past → IsSound setting values
        → (s : StandBeside first epoch setting before now past)
        → IsSound (restored_setting first setting now)
        (final_values values (committed_too past s.more)) }
    ensures images { (table : Table) (images : List (List ℕ)) (base : List (List Tuple))
        → (epoch : ℕ) (past : Past) (s : StandInPairs table base epoch past images)
        → (tuples : List (List Tuple)) → RestoreInPairs table images tuples → (values : List Datum)
        → Legal (setting_of table base) past → IsSound (setting_of table base) values
        → CarryFinal table values (committed_too past s.beside.more) tuples }
    ensures some { (table : Table) (images : List (List ℕ)) (base : List (List Tuple))
        → (epoch : ℕ) (past : Past) → StandInPairs table base epoch past images
        → (tuples : List (List Tuple)) × RestoreInPairs table images tuples }
    ensures one { (table : Table) (images : List (List ℕ)) (tuples others : List (List Tuple))
        → RestoreInPairs table images tuples → RestoreInPairs table images others
        → tuples ≡ others }
    ensures fresh { (table : Table) (images : List (List ℕ))
        → AreFreshPairs table images → StandInPairs table (base_of table) 1 [] images }
{}
