//! Which runs can be saved, as a law over all histories.
ghost use Rattle.std.specs.Prelude.{List, length, reverse};
ghost use Rattle.std.specs.List.{All};
ghost use Rattle.qc_event.specs.Base.{Setting, IsProper, IsProperBase};
ghost use Rattle.qc_event.specs.declared.event.Entry.{Entry};
ghost use Rattle.qc_event.specs.Legal.{Legal};
ghost use Rattle.qc_trail_codec.specs.Saving.{CanBeSaved, records_of};

/// The base of a proper setting and the entries of a legal history, the oldest first, can be saved: what `write_trail`
/// asks of them holds.
pub fn legal_histories_can_be_saved()
    ensures base { (setting : Setting) → IsProper setting
        → IsProperBase (records_of setting.base) setting.base }
    ensures entries { (setting : Setting) (trail : List Entry) → IsProper setting
        → Legal setting (reverse trail)
        → All (CanBeSaved (length setting.base)) trail }
{}
