//! That folding a pair of disks changes nothing that they restore, as a law over all legal histories.
ghost use Rattle.std.specs.Prelude.{ℕ, ◌≡◌, ◌<◌, ◌++◌, List, [], length, All, None, false};
ghost use Rattle.qc_codec.specs.Restored.{restored_tuple};
ghost use Rattle.qc_config.specs.Val.{Datum};
ghost use Rattle.qc_config.specs.declared.tuple.Tuple.{Tuple};
ghost use Rattle.qc_event.specs.Base.{Setting, start_tuple};
ghost use Rattle.qc_event.specs.History.{Past, grants};
ghost use Rattle.qc_event.specs.Legal.{Legal};
ghost use Rattle.qc_event.specs.Seats.{is_client, ledger_seat};
ghost use Rattle.qc_event.specs.Seen.{seen};
ghost use Rattle.qc_event.specs.Sound.{IsSound};
ghost use Rattle.qc_event.specs.Standing.{HasEnded, open_child};
ghost use Rattle.qc_event.specs.declared.event.Entry.{Entry};
ghost use Rattle.qc_serial.specs.Serial.{final_values};
ghost use Rattle.qc_refine.specs.Folded.{AreFoldedPairs};
ghost use Rattle.qc_refine.specs.Restored.{Kept, granted_at, restored, restored_setting};
ghost use Rattle.qc_refine.specs.Standing.{StandBeside, committed_too};

/// Where no child of the root is open each top has ended (`ended`), and that stays whatever the ledger and the copies
/// enter (`goes_on`). Where only copies entered something since, each had ended before (`was_so`).
///
/// Disks stand beside a legal history. Once each top has ended, what their records restore of a copy is what it holds
/// (`held`), and that stays while the copy grants nothing more (`still`). So where some copies' pairs were folded to
/// what they hold, and the ledger's only where all were, the disks restore the same (`alike`), which is sound for the
/// serial machine's values after the history, with the tops that may come next (`sound`).
pub fn folded_pairs_restore_alike()
    ensures ended { (past : Past) → open_child past [] ≡ None → HasEnded past }
    ensures goes_on { (setting : Setting) (newer past : Past) → Legal setting (newer ++ past)
        → HasEnded past → All (λ (e : Entry). is_client e.seat ≡ false) newer
        → HasEnded (newer ++ past) }
    ensures was_so { (setting : Setting) (newer past : Past) → Legal setting (newer ++ past)
        → HasEnded (newer ++ past)
        → All (λ (e : Entry). (is_client e.seat ≡ false) × (e.seat ≡ ledger_seat → ⊥)) newer
        → HasEnded past }
    ensures held { (first : List (List Tuple)) (epoch : ℕ) (setting : Setting) (before now : Kept)
        (past : Past) → Legal setting past
        → StandBeside first epoch setting before now past → HasEnded past
        → (copy rec : ℕ) → copy < length first → rec < length setting.firsts
        → restored_tuple now.tops rec (start_tuple first copy rec) (granted_at now copy)
        ≡ seen setting.base past copy rec }
    ensures still { (setting : Setting) (newer past : Past) (copy rec : ℕ)
        → Legal setting (newer ++ past) → HasEnded past
        → grants (newer ++ past) copy ≡ grants past copy
        → seen setting.base (newer ++ past) copy rec ≡ seen setting.base past copy rec }
    ensures alike { (first first' : List (List Tuple)) (epoch : ℕ) (setting : Setting)
        → (before now now' : Kept) (past : Past) → Legal setting past
        → StandBeside first epoch setting before now past
        → AreFoldedPairs setting past first first' now now'
        → restored first' (length setting.firsts) now'
        ≡ restored first (length setting.firsts) now }
    ensures sound { (first first' : List (List Tuple)) (epoch : ℕ) (setting : Setting)
        → (values : List Datum) (before now now' : Kept) (past : Past) → Legal setting past
        → IsSound setting values → (s : StandBeside first epoch setting before now past)
        → AreFoldedPairs setting past first first' now now'
        → IsSound (restored_setting first' setting now')
        (final_values values (committed_too past s.more)) }
{}
