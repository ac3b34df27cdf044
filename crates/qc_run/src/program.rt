//! The top call: all that the program does, over the streams and the shop of disks that it is handed.
ghost use Rattle.std.specs.Prelude.{ℕ, List, ⊤, ◌++◌, ◌≡◌, ◌≢◌, ◌≤◌, ◌⊎◌, [], All, length, map, reverse, string_bytes, IfSome};
ghost use Rattle.qc_disk.specs.Shop.{TellsAlike, disks_of_place};
ghost use Rattle.qc_event.specs.History.{Name, limit};
ghost use Rattle.qc_event.specs.Legal.{Legal};
ghost use Rattle.qc_event.specs.Sound.{IsSound};
ghost use Rattle.qc_event.specs.Tables.{base_of, first_values, setting_of};
ghost use Rattle.qc_io.specs.Io.{Rose, Keeps, Appends, AppendsFront, Drops, LosesWithin};
ghost use Rattle.qc_opening.specs.Disks.{by_place, first_numbers};
ghost use Rattle.qc_opening.specs.Images.{AreSound, IsFirstFault, Offers};
ghost use Rattle.qc_opening.specs.Pairs.{HaveNoGrantsInPairs};
ghost use Rattle.qc_opening.specs.SinceFolds.{SinceFolds};
ghost use Rattle.qc_opening.specs.Stored.{AllTell, AreImages, HaveGrown, HavePaid, UnablesHadCause, WereFolded};
ghost use Rattle.qc_refine.specs.Pairs.{RestoreInPairs, StandInPairsWithin};
ghost use Rattle.qc_script.specs.Plan.{ScriptPlan};
ghost use Rattle.qc_script.specs.Reading.{IsScript};
ghost use Rattle.qc_codec.specs.declared.image.BadImage.{BadImage};
ghost use Rattle.qc_run.specs.Audit as audits;
ghost use Rattle.qc_run.specs.Left as left;
ghost use Rattle.qc_run.specs.Run as terms;
ghost use Rattle.qc_run.specs.Words as line;

use crate::auditing::audit_source;
use crate::io::{Sink, Source};
use crate::making::make;
use crate::ran::Ran;
use crate::reading::read;
use crate::refusing::refuse;
use crate::status::Status;
use crate::words::{Command, command_of};
use qc_disk::Shop;
use qc_gate::Gate;
use qc_opening::one_verdict;
use std::alloc::Global;
use std::sync::Wait;
use std::thread::Threads;

// Does what the words say.
fn answer<R: Threads + Wait + Sync, S: Source, K: Sink, H: Shop, G: Gate + Sync>(
    rt: &R,
    alloc: Global,
    words: &[String],
    source: &mut S,
    sink: &mut K,
    shop: &mut H,
    gate: &G,
) -> Ran<H::D>
where
    H::D: Drop + Send,
    ensures answer { left.IsAnswerToWords H.D.view H.view (map string_bytes words.now)
        (S.view source.old) (S.view source.new) shop.old shop.new
        (K.view sink.old) (K.view sink.new) result }
    ensures no_command { line.IsNoCommand (map string_bytes words.now)
        → terms.IsOrMemory Status.Usage result.status × (source.new ≡ source.old)
        × (shop.new ≡ shop.old) }
    ensures source_faults { (S.view source.old).faults ≤ (S.view source.new).faults }
    ensures source_taken { line.IsReading (map string_bytes words.now)
        → terms.ReadWhole result.status
        → Drops (S.view source.old).left (S.view source.new).left terms.most_taken }
    ensures source_within { line.AsAsked (map string_bytes words.now) (λ asked. LosesWithin
        (S.view source.old).left (S.view source.new).left (terms.most_taken_for asked)) }
    ensures source_left { line.IsMaking (map string_bytes words.now) → source.new ≡ source.old }
    ensures audited { line.IsAudit (map string_bytes words.now)
        → left.HasAudited (S.view source.old) (S.view source.new) (K.view sink.old)
        (K.view sink.new) result × (shop.new ≡ shop.old) }
    ensures shop_faults { (H.view shop.old).faults ≤ (H.view shop.new).faults }
{
    match command_of(words) {
        Some(Command::Run { place, mode, form }) => {
            read(rt, alloc, place, mode, form, source, sink, shop, gate)
        }
        Some(Command::Gen { number }) => make(rt, alloc, number, sink, shop, gate),
        Some(Command::Audit) => audit_source(alloc, source, sink),
        None => refuse(alloc, Status::Usage, Vec::new(alloc), sink),
    }
}

/// Does what the words of the command line say, over these streams and this shop: `run` reads a script from
/// the source, runs its sessions over the copies of its records, whose disks it obtains, each with a spare, from
/// the shop at the place that `--dir` names, by a network that loses, delays and repeats requests as the script
/// says, and writes the report, or with `--trail` the saved trail. Sessions run in threads of their own, or one
/// after another with `--serial`. Each, and each branch, passes the gate before each begin, step and end.
/// `gen` with a number makes the script of that number, and leaves the source alone; it runs that script likewise,
/// one session after another, over the disks of the place without a name, and writes the summary. `audit` reads a
/// saved trail from the source, and writes whether its history is legal, and its serial order. All other words are
/// refused with the usage line.
///
/// Whatever it answers, its history is legal, with the requests to copies and their grants in it, and the
/// serial machine with one value per record accepts the order that completion gives it, in which every user
/// transaction without an aborted ancestor has exactly its own starts, ends and answers (Goldman and Lynch;
/// Lynch and Merritt's serial scheduler). The run starts from what the disks restore, and whatever a crash
/// leaves of them then stands beside the history, so that a later run goes on from there. A source that is read is read
/// to its end, or one byte past the longest script. Want of memory may be answered at any time; it leaves the
/// sink as it was.
pub fn run<R: Threads + Wait + Sync, S: Source, K: Sink, H: Shop, G: Gate + Sync>(
    rt: &R,
    alloc: Global,
    words: &[String],
    source: &mut S,
    sink: &mut K,
    shop: &mut H,
    gate: &G,
) -> Ran<H::D>
where
    H::D: Drop + Send,

    // Nothing was begun, or the words run a script, which the source held or which was made, and the history is legal
    // over the first configurations of its table and the start.
    ensures legal_history { terms.OfRun (map string_bytes words.now) (S.view source.old).left
        (S.view source.new).left result
        (λ s. Legal (setting_of s.table result.start) (reverse result.trail)) }
    ensures as_many { terms.OfRun (map string_bytes words.now) (S.view source.old).left
        (S.view source.new).left result (λ s. length result.start ≡ s.table.copies) }
    ensures nothing_begun { terms.BeganNothing result.status
        → (result.trail ≡ []) × (result.start ≡ []) }

    // At each moment of the history, each user transaction without an aborted ancestor has its serial order, from
    // each map of values for which the start is sound.
    ensures serial_order { terms.OfRun (map string_bytes words.now) (S.view source.old).left
        (S.view source.new).left result
        (λ s. terms.HasSerialOrders s.table result.start result.trail) }

    // The last values of the report, which go by versions, are then those of the serial machine.
    ensures last_values { terms.OfRun (map string_bytes words.now) (S.view source.old).left
        (S.view source.new).left result
        (λ s. terms.HasSerialValues s.table result.start result.trail) }

    // Whatever cut the run off, the history is a beginning of one that follows the script, with requests that meet the
    // fates of its network; what ran to its end follows it.
    ensures begins_script { terms.OfRun (map string_bytes words.now) (S.view source.old).left
        (S.view source.new).left result
        (λ s. terms.Begins s result.trail) }
    ensures follows_script { terms.RanToEnd result.status
        → terms.UnlessAudit (map string_bytes words.now) (terms.OfScript
        (map string_bytes words.now) (S.view source.old).left (S.view source.new).left
        (λ s. terms.TrailFollows s result.trail)) }
    ensures started { terms.HadScript result.status
        → terms.UnlessAudit (map string_bytes words.now) (terms.OfScript
        (map string_bytes words.now) (S.view source.old).left (S.view source.new).left (λ _. ⊤)) }

    // Who was in doubt when the sessions had run to their end.
    ensures in_doubt { result.status ≡ Status.InDoubt
        → (top : Name) × terms.IsInDoubt (reverse result.trail) top }
    ensures none_in_doubt { result.status ≡ Status.Done
        → (top : Name) → terms.IsInDoubt (reverse result.trail) top → ⊥ }
    ensures all_ended { result.status ≡ Status.Done
        → terms.AllEnded (reverse result.trail) }

    // The start is what the disks restore, where the shop tells their bytes. Where no grant stands on them it is the
    // table's own first tuples, which are sound for its start values.
    ensures restores { terms.OfRun (map string_bytes words.now) (S.view source.old).left
        (S.view source.new).left result
        (λ s. line.AtPlace (map string_bytes words.now) (λ place. (images : List (List ℕ))
        → Offers s.table ((H.view shop.old).offers place) images
        → RestoreInPairs s.table images result.start)) }
    ensures first_start { terms.OfRun (map string_bytes words.now) (S.view source.old).left
        (S.view source.new).left result
        (λ s. line.AtPlace (map string_bytes words.now)
        (λ place. HaveNoGrantsInPairs s.table
        (by_place s.table.copies ((H.view shop.old).offers place))
        → result.start ≡ base_of s.table)) }
    ensures sound_start { terms.OfRun (map string_bytes words.now) (S.view source.old).left
        (S.view source.new).left result
        (λ s. line.AtPlace (map string_bytes words.now)
        (λ place. HaveNoGrantsInPairs s.table
        (by_place s.table.copies ((H.view shop.old).offers place))
        → IsSound (setting_of s.table result.start) (first_values s.table))) }

    // Where all disks told their bytes, whatever a crash leaves of those that come back stands beside the history, in
    // its epoch.
    ensures images_stand { terms.OfRun (map string_bytes words.now) (S.view source.old).left
        (S.view source.new).left result
        (λ s. (epoch : ℕ)
        × terms.BeginsIn epoch s result.trail
        × line.AtPlace (map string_bytes words.now)
        (λ place. AllTell s.table.copies
        (by_place s.table.copies ((H.view shop.old).offers place))
        → (images : List (List ℕ)) → AreImages H.D.view result.disks.items images
        → ∥ StandInPairsWithin 1 s.table result.start epoch (reverse result.trail) images ∥₁)) }

    // A copy's pair of an older format was folded first, with what its active disk restored: what the disks tell
    // since those folds is what the next clauses go by. At each moment since the active disk of a pair was mounted,
    // where it told its bytes, a crash left the records that it had then, and behind them those of the history up to
    // some time, with at most one more, which could come next then. Of two such moments each image of the later had
    // every record that all images of the earlier had. Before, a crash left of the disk what it left of it as it was
    // when it had been mounted. The other disk of a pair kept what it had; or, where each top has its end, at each
    // moment it had that, or none, or how it is made, or that and a base with the next number, the epoch, and what
    // the copy holds in the end.
    ensures images_grow { terms.OfRun (map string_bytes words.now) (S.view source.old).left
        (S.view source.new).left result
        (λ s. (epoch : ℕ)
        × terms.BeginsIn epoch s result.trail
        × line.AtPlace (map string_bytes words.now)
        (λ place. SinceFolds s.table
        (by_place s.table.copies ((H.view shop.old).offers place))
        (λ now. HaveGrown H.D.view s.table now epoch result.start result.disks.items
        (reverse result.trail)))) }

    // A run that ended with no top in doubt has folded each pair: so where each disk told its bytes and has not failed since
    // the shop gave it, the history is not full, no pair had the last number, and each base fits the longest journal. Then
    // whatever a crash leaves of a pair has, on the disk that is active now, how it is made, the epoch, and what the copy holds
    // of each record, and no more; the ledger's has no record.
    ensures pairs_folded { result.status ≡ Status.Done
        → terms.OfRun (map string_bytes words.now) (S.view source.old).left
        (S.view source.new).left result
        (λ s. (epoch : ℕ)
        × terms.BeginsIn epoch s result.trail
        × line.AtPlace (map string_bytes words.now)
        (λ place. SinceFolds s.table
        (by_place s.table.copies ((H.view shop.old).offers place))
        (λ now. WereFolded H.D.view s.table terms.journal_limit now
        (by_place s.table.copies ((H.view shop.old).counts place)) epoch
        result.start result.disks.items (reverse result.trail)))) }

    // Each failure that someone was unable for, the active disk of a pair has counted since the shop gave it.
    ensures paid { terms.OfRun (map string_bytes words.now) (S.view source.old).left
        (S.view source.new).left result
        (λ s. (epoch : ℕ)
        × terms.BeginsIn epoch s result.trail
        × line.AtPlace (map string_bytes words.now)
        (λ place. SinceFolds s.table
        (by_place s.table.copies ((H.view shop.old).offers place))
        (λ now. HavePaid H.D.view s.table now
        (by_place s.table.copies ((H.view shop.old).counts place)) epoch
        result.start result.disks.items (reverse result.trail)))) }

    // Where the ledger's active disk told its bytes: each top that the ledger was unable to log for want of room would with
    // its record, behind those of the mounting and of the tops that were committed until then, have passed the longest
    // journal. Where a copy's active disk did: so would each request that it was unable to serve for want of room, with the
    // record of a grant that it might have made of it when it had made those until then; and the copy was never strange.
    ensures unable { terms.OfRun (map string_bytes words.now) (S.view source.old).left
        (S.view source.new).left result
        (λ s. (epoch : ℕ)
        × terms.BeginsIn epoch s result.trail
        × line.AtPlace (map string_bytes words.now)
        (λ place. SinceFolds s.table
        (by_place s.table.copies ((H.view shop.old).offers place))
        (λ now. UnablesHadCause s.table terms.journal_limit now epoch result.start
        (reverse result.trail)))) }

    // The disks that come back are all that the shop gave, in the order of their places: those of all pairs, and then their
    // spares. None was where there was no script, and the shop tells of all others as before. A mounting that was refused
    // leaves each as it says, also where memory was wanting.
    ensures come_back { terms.IsNotMounted result.status
        → terms.OfScript (map string_bytes words.now) (S.view source.old).left
        (S.view source.new).left
        (λ s. line.AtPlace (map string_bytes words.now) (λ place. left.CameBack H.D.view s
        (H.view shop.old) place result.disks.items)) }
    ensures wanting { result.start ≡ [] → (result.disks.items ≡ [])
        ⊎ terms.OfScript (map string_bytes words.now) (S.view source.old).left
        (S.view source.new).left
        (λ s. line.AtPlace (map string_bytes words.now) (λ place. left.CameBack H.D.view s
        (H.view shop.old) place result.disks.items)) }
    ensures none_obtained { terms.HadNone result.status → result.disks.items ≡ [] }
    ensures disks { ((result.disks.items ≡ []) × (shop.new ≡ shop.old))
        ⊎ terms.OfScript (map string_bytes words.now) (S.view source.old).left
        (S.view source.new).left
        (λ s. line.AtPlace (map string_bytes words.now) (λ place.
        (H.view shop.new).gave ≡ (H.view shop.old).gave ++ disks_of_place place
        (first_numbers s.table.copies (length result.disks.items)))) }
    ensures offers { (more : List (List ℕ × ℕ))
        → (H.view shop.new).gave ≡ (H.view shop.old).gave ++ more
        → (place : List ℕ) (n : ℕ) → All (λ given. n ≢ given.1) more
        → TellsAlike (H.view shop.old) (H.view shop.new) place n }

    // The bytes written are the report, or the summary where the script was made; a front of it, a fault's line, or none.
    ensures output { terms.IsReported result.status
        → terms.UnlessAudit (map string_bytes words.now) (terms.OfScript
        (map string_bytes words.now) (S.view source.old).left (S.view source.new).left
        (λ s. line.AsAsked (map string_bytes words.now) (λ asked. Appends
        (K.view sink.old).taken (K.view sink.new).taken
        (terms.text_by (terms.form_of asked) s.table result.start result.trail)))) }
    ensures output_front { result.status ≡ Status.WriteFault
        → terms.UnlessAudit (map string_bytes words.now) (terms.OfScript
        (map string_bytes words.now) (S.view source.old).left (S.view source.new).left
        (λ s. line.AsAsked (map string_bytes words.now) (λ asked. AppendsFront
        (K.view sink.old).taken (K.view sink.new).taken
        (terms.text_by (terms.form_of asked) s.table result.start result.trail)))) }
    ensures output_line { terms.IsTold result.status
        → terms.TellsFault (K.view sink.old).taken (K.view sink.new).taken
        (K.view sink.old).faults (K.view sink.new).faults result.status }
    ensures output_none { result.status ≡ Status.Memory
        → Keeps (K.view sink.old).taken (K.view sink.new).taken }

    // A trail that is saved can be read again. An audit begins nothing and takes no disk: it answers, and writes, what is so
    // of the trail that the source held.
    ensures saved { terms.IsReported result.status → terms.UnlessAudit (map string_bytes words.now)
        (terms.OfScript (map string_bytes words.now) (S.view source.old).left
        (S.view source.new).left (λ s. line.AsAsked (map string_bytes words.now)
        (λ asked. left.IsSavedBy (terms.form_of asked) s.table result.start result.trail))) }
    ensures audited { line.IsAudit (map string_bytes words.now)
        → audits.IsAudited (S.view source.old) (S.view source.new) (K.view sink.old)
        (K.view sink.new) result.status }
    ensures audit_alone { line.IsAudit (map string_bytes words.now)
        → terms.NoneBegun result.start result.trail × (result.disks.items ≡ [])
        × (shop.new ≡ shop.old) }

    // When each status comes.
    ensures usage { result.status ≡ Status.Usage
        → line.IsNoCommand (map string_bytes words.now) }
    ensures no_command { line.IsNoCommand (map string_bytes words.now)
        → terms.IsOrMemory Status.Usage result.status × (source.new ≡ source.old)
        × (shop.new ≡ shop.old) }
    ensures of_audit { terms.IsOfAudit result.status
        → line.IsAudit (map string_bytes words.now) }
    ensures script_fault { terms.IsScriptFault (map string_bytes words.now)
        (S.view source.old).left result.status }
    ensures no_script { line.IsReading (map string_bytes words.now)
        → IfSome (S.view source.old).left
        (λ bytes. ((s : ScriptPlan) → IsScript bytes s → ⊥) → terms.IsNoRun result.status) }
    ensures read_fault { result.status ≡ Status.ReadFault
        → terms.IsReadFault (map string_bytes words.now)
        (S.view source.old).faults (S.view source.new).faults }
    ensures write_fault { result.status ≡ Status.WriteFault
        → Rose (K.view sink.old).faults (K.view sink.new).faults }
    ensures disk_fault { (which : ℕ) → result.status ≡ Status.DiskFault which
        → terms.OfScript (map string_bytes words.now) (S.view source.old).left
        (S.view source.new).left
        (λ s. line.AtPlace (map string_bytes words.now) (λ place. terms.IsDiskFault H.D.view
        s.table.copies (H.view shop.old).faults (H.view shop.new).faults
        ((H.view shop.old).counts place) result.disks.items which)) }
    ensures image_fault { (bad : BadImage) → result.status ≡ Status.Image bad
        → terms.OfScript (map string_bytes words.now) (S.view source.old).left
        (S.view source.new).left
        (λ s. line.AtPlace (map string_bytes words.now) (λ place. (images : List (List ℕ))
        → Offers s.table ((H.view shop.old).offers place) images
        → IsFirstFault s.table terms.journal_limit bad images)) }
    ensures sound_images { (s : ScriptPlan) (images : List (List ℕ))
        → terms.AsksFor (map string_bytes words.now) (S.view source.old).left s
        → line.AtPlace (map string_bytes words.now)
        (λ place. Offers s.table ((H.view shop.old).offers place) images
        → AreSound s.table terms.journal_limit images
        → (bad : BadImage) → result.status ≡ Status.Image bad → ⊥) }
    ensures mounted_images { terms.HadSession result.status
        → terms.UnlessAudit (map string_bytes words.now) (terms.OfScript
        (map string_bytes words.now) (S.view source.old).left (S.view source.new).left
        (λ s. line.AtPlace (map string_bytes words.now) (λ place. (images : List (List ℕ))
        → Offers s.table ((H.view shop.old).offers place) images
        → AreSound s.table terms.journal_limit images))) }
    ensures room { result.status ≡ Status.Room → length result.trail ≡ limit }
    ensures source_faults { (S.view source.old).faults ≤ (S.view source.new).faults }
    ensures sink_faults { (K.view sink.old).faults ≤ (K.view sink.new).faults }
    ensures shop_faults { (H.view shop.old).faults ≤ (H.view shop.new).faults }

    // A source that is read is taken to its end, or one byte past the longest script; never further. Where a script is
    // made it is left as it was.
    ensures source_taken { line.IsReading (map string_bytes words.now)
        → terms.ReadWhole result.status
        → Drops (S.view source.old).left (S.view source.new).left terms.most_taken }
    ensures source_within { line.AsAsked (map string_bytes words.now) (λ asked. LosesWithin
        (S.view source.old).left (S.view source.new).left (terms.most_taken_for asked)) }
    ensures source_left { line.IsMaking (map string_bytes words.now) → source.new ≡ source.old }

    // A script is run, where no stream fails, as far as there is memory and room, or a disk or an image is refused.
    // Where no disk failed before a session was begun either, and the images have no fault, none is refused.
    ensures completes { (s : ScriptPlan)
        → terms.AsksFor (map string_bytes words.now) (S.view source.old).left s
        → (Rose (S.view source.old).faults (S.view source.new).faults → ⊥)
        → (Rose (K.view sink.old).faults (K.view sink.new).faults → ⊥)
        → terms.IsRun result.status }
    ensures completes_over_disks { (s : ScriptPlan) (images : List (List ℕ))
        → terms.AsksFor (map string_bytes words.now) (S.view source.old).left s
        → line.AtPlace (map string_bytes words.now)
        (λ place. (Rose (S.view source.old).faults (S.view source.new).faults → ⊥)
        → (Rose (K.view sink.old).faults (K.view sink.new).faults → ⊥)
        → (result.start ≡ [] → (which : ℕ) → terms.IsDiskFault H.D.view s.table.copies
        (H.view shop.old).faults (H.view shop.new).faults ((H.view shop.old).counts place)
        result.disks.items which → ⊥)
        → Offers s.table ((H.view shop.old).offers place) images
        → AreSound s.table terms.journal_limit images
        → terms.IsSessionRun result.status) }
{
    one_verdict();
    answer(rt, alloc, words, source, sink, shop, gate)
}
