//! What a crash may leave of a disk in memory, as a law over all records of calls.
ghost use Rattle.std.specs.Prelude.{ℕ, List};
ghost use Rattle.qc_disk.specs.Replay.{Act, images};
ghost use Rattle.qc_disk.specs.Between.{LeftBetween, extent};

/// Between two syncs a crash leaves the bytes that were synced last wherever nothing was written or cut since,
/// and a length between the least and the greatest since. After a sync it leaves what was synced.
pub fn left_between()
    ensures { (first : List ℕ) (acts : List Act) (c : List ℕ) → images first acts c
        → LeftBetween (extent first acts) c }
{}
