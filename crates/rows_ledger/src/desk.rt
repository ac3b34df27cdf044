//! A ledger over a desk of its own.
ghost use Rattle.std.specs.Prelude.{◌≡◌, IfOk, IsTrue, length};
ghost use Rattle.qc_codec.specs.Bodies as body;
ghost use Rattle.qc_event.specs.History.{is_ready};
ghost use Rattle.qc_desk.specs.Rules.{IsClient};

use crate::answer::{done, no_such, not_now};
use crate::fold::fold;
use crate::folds::Folds;
use qc_codec::{LedgerRecord, read_ledger};
use qc_desk::{Blank, Desk, DeskNo, Pass, Store};
use qc_disk::MemDisk;
use qc_event::{Base, Entry, Event, How, Name};
use qc_ledger::{Book, Ledger};
use qc_trail::Trail;
use rows_kit::bytes;
use std::alloc::{AllocError, Global};
use std::marker::Brand;
use std::sync::Wait;

// A top is started and made ready.
fn ready_top<N: Store, R: Wait>(rt: &R, desk: &Desk<N>, pass: &mut Pass<N>) -> Result<Name, DeskNo>
    requires client { IsClient pass.old }
    ensures same { (pass.new.live ≡ pass.old.live) × (pass.new.number ≡ pass.old.number)
        × (pass.new.out ≡ pass.old.out) }
    ensures ready { IfOk result
        (λ top. (length top ≡ 1) × IsTrue (is_ready pass.new.seen top)) }
{
    let top = desk.start_top(rt, pass, 0, 0)?;
    pass.known();
    desk.ready(rt, pass, &top)?;
    Ok(top)
}

// Logs the next top by this record, where it is that top's.
fn log_next<N: Store, R: Wait>(
    rt: &R,
    alloc: Global,
    desk: &Desk<N>,
    pass: &mut Pass<N>,
    ledger: &mut Ledger<MemDisk, N>,
    told: &LedgerRecord,
) -> Result<String, AllocError>
    requires client { IsClient pass.old }
    requires proper { body.ledger.fits told.now }
    ensures same { (pass.new.live ≡ pass.old.live) × (pass.new.number ≡ pass.old.number)
        × (pass.new.out ≡ pass.old.out) }
{
    let Ok(ready) = ready_top(rt, desk, pass) else {
        return not_now(alloc);
    };
    let LedgerRecord::Top { top, aborted } = told else {
        return no_such(alloc);
    };
    if *top != ready {
        return no_such(alloc);
    }
    done(alloc, ledger.log(rt, desk, pass, top, aborted.as_slice()))
}

// Logs the next top by the record that a word spells; or revives the ledger, or folds it.
fn one_step<N: Store, R: Wait>(
    rt: &R,
    alloc: Global,
    desk: &Desk<N>,
    pass: &mut Pass<N>,
    ledger: &mut Ledger<MemDisk, N>,
    folds: &mut Folds,
    word: &str,
) -> Result<String, AllocError>
    requires client { IsClient pass.old }
    ensures same { (pass.new.live ≡ pass.old.live) × (pass.new.number ≡ pass.old.number)
        × (pass.new.out ≡ pass.old.out) }
{
    if word == "revive" {
        return done(alloc, ledger.revive(rt, desk));
    }
    if word == "fold" {
        return fold(alloc, ledger, folds);
    }
    let spelled = bytes(alloc, word)?;
    match read_ledger(alloc, &spelled) {
        Ok(told) => log_next(rt, alloc, desk, pass, ledger, &told),
        Err(_) => no_such(alloc),
    }
}

// What each word answers, with a comma behind it.
fn all_steps<N: Store, R: Wait>(
    rt: &R,
    alloc: Global,
    desk: &Desk<N>,
    pass: &mut Pass<N>,
    ledger: &mut Ledger<MemDisk, N>,
    folds: &mut Folds,
    words: &[&str],
) -> Result<String, AllocError>
    requires client { IsClient pass.old }
    ensures same { (pass.new.live ≡ pass.old.live) × (pass.new.number ≡ pass.old.number)
        × (pass.new.out ≡ pass.old.out) }
{
    let mut text = String::new(alloc);
    for word in words {
        let answer = one_step(rt, alloc, desk, pass, ledger, folds, word)?;
        text.push_str(answer.as_str())?;
        text.push_str(", ")?;
    }
    Ok(text)
}

fn run_named<N: Store, R: Wait>(
    rt: &R,
    alloc: Global,
    blank: Blank,
    book: Book<MemDisk>,
    folds: &mut Folds,
    words: &[&str],
) -> (MemDisk, Trail, Result<String, AllocError>)
    requires desk { blank.room.shared.table_id ≡ N.desk }
    requires base { blank.base ≡ N.base }
{
    let (desk, mut first) = blank.name::<N>();
    let pass = desk.split(rt, &mut first);
    let mut ledger = book.enter(pass);
    let text = all_steps(rt, alloc, &desk, &mut first, &mut ledger, folds, words);
    let (disk, _) = ledger.into_parts();
    let (_, trail) = desk.close(first);
    (disk, trail, text)
}

fn is_commit(entry: &Entry) -> bool {
    matches!(
        entry.event,
        Event::End {
            how: How::Commit(_),
            ..
        }
    )
}

fn is_unable(entry: &Entry) -> bool {
    matches!(entry.event, Event::Unable { .. })
}

// How many commits stand in a history, and how many tops that the ledger was unable to log.
fn counts(alloc: Global, entries: &[Entry]) -> Result<String, AllocError> {
    let commits = entries.iter().filter(|entry| is_commit(entry)).count();
    let unable = entries.iter().filter(|entry| is_unable(entry)).count();
    format!(in alloc; "{commits} commits, {unable} unable")
}

/// The ledger of a new desk goes through these words, which spell the records of its tops, or say `revive` or `fold`. It
/// answers what each did, and how many commits stand in the history, and how many tops that the ledger was unable to log.
pub(crate) fn over_desk<R: Wait>(
    rt: &R,
    alloc: Global,
    book: Book<MemDisk>,
    epoch: u32,
    folds: &mut Folds,
    words: &[&str],
) -> Result<(MemDisk, String), AllocError> {
    let blank = Blank::new(alloc, Base::new(Vec::new(alloc)), epoch.max(1))?;
    let (disk, trail, text) = run_named::<Brand, R>(rt, alloc, blank, book, folds, words);
    let mut told = text?;
    told.push_str(counts(alloc, trail.to_vec(alloc)?.as_slice())?.as_str())?;
    Ok((disk, told))
}
