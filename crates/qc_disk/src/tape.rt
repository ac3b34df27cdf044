//! The bytes of a disk in memory, and what is kept of each call to undo it.
ghost use Rattle.std.specs.Prelude.{◌≡◌, ◌≤◌, ◌<◌, ◌+◌, ◌-◌, ◌^◌, [], length, take, IfOk, OnOk, OnErr};
ghost use Rattle.std.specs.Vec.{vec_capacity, vec_len};
ghost use Rattle.qc_disk.specs.Disk.{written};
ghost use Rattle.qc_disk.specs.Replay.{image_after, last_synced};
ghost use Rattle.qc_disk.specs.Kept.{restored, first_of, acts_of, records_kept, past_kept, IsExact, IsExact-prop, StepsBack};

use crate::records::{Change, Kind, Past, Records, append_all};
use std::alloc::{AllocError, Global};

/// What a call is to do to the disk. The bytes that it writes stand beside it.
#[derive(Clone, Copy)]
pub(crate) enum Deed {
    Nothing,
    Write(usize),
    Cut(usize),
    Sync,
}

/// The bytes of a disk now, and what is kept of each call. What was there before is what is there now with the
/// calls undone.
#[derive(Drop)]
pub(crate) struct Tape {
    bytes: Vec<u8>,
    records: Records,
    ghost exact: { IsExact (records_kept records) bytes.items } by { IsExact-prop (records_kept records) bytes.items },
}

// Writes bytes at a place over others, and behind them, into the room that there is. Its time grows with the bytes
// that are written, and not with those that are there.
fn overwrite(bytes: &mut Vec<u8>, at: usize, new: &[u8])
    requires { vec_len bytes.old + (length new.now - (vec_len bytes.old - at))
        ≤ vec_capacity bytes.old }
    ensures { bytes.new.items ≡ written at new.now bytes.old.items }
{
    let at = at.min(bytes.len());
    let over = new.len().min(bytes.len() - at);
    append_all(bytes, &new[over..]);
    bytes[at..at + over].copy_from_slice(&new[..over]);
}

// Undoes a write or a cut: what it added behind the end is cut off, and what it wrote over or cut off is put back.
fn restore(bytes: &mut Vec<u8>, change: Change, lost: &[u8]) -> Result<(), AllocError>
    ensures { OnOk result (bytes.new.items ≡ restored change lost.now bytes.old.items) }
{
    bytes.truncate(bytes.len().saturating_sub(change.added as usize));
    bytes.reserve(lost.len())?;
    overwrite(bytes, change.at as usize, lost);
    Ok(())
}

// Undoes the last call, if there is one, and gives what is kept of those before it.
fn step_back<'a>(past: Past<'a>, bytes: &mut Vec<u8>) -> Result<Past<'a>, AllocError>
    ensures calls { IfOk result (λ before. length before.calls.now
        ≡ length past.entry.calls.now - 1) }
    ensures back { IfOk result (λ before. StepsBack (past_kept past.entry) bytes.old.items
        (past_kept before) bytes.new.items) }
{
    let [calls @ .., kind] = past.calls else {
        return Ok(past);
    };
    match (kind, past.changes) {
        (Kind::Wrote | Kind::Cut, [changes @ .., change]) => {
            let kept = past.lost.len().saturating_sub(change.over as usize);
            restore(bytes, *change, &past.lost[kept..])?;
            Ok(Past {
                calls,
                changes,
                lost: &past.lost[..kept],
            })
        }
        _ => Ok(Past { calls, ..past }),
    }
}

// Undoes the newest calls until so many are left.
fn rewind<'a>(past: Past<'a>, bytes: &mut Vec<u8>, count: usize) -> Result<Past<'a>, AllocError>
    requires count { count ≤ length past.calls.now }
    requires exact { IsExact (past_kept past) bytes.old.items }
    ensures exact { IfOk result (λ before. IsExact (past_kept before) bytes.new.items) }
    ensures first { IfOk result (λ before. first_of (past_kept before) bytes.new.items
        ≡ first_of (past_kept past.entry) bytes.old.items) }
    ensures acts { IfOk result (λ before. acts_of (past_kept before) bytes.new.items
        ≡ take count (acts_of (past_kept past.entry) bytes.old.items)) }
{
    let mut left = past;
    while left.calls.len() > count {
        left = step_back(left, bytes)?;
    }
    Ok(left)
}

// Undoes the newest calls as far as the last sync, or all of them.
fn rewind_to_sync(past: Past<'_>, bytes: &mut Vec<u8>) -> Result<(), AllocError>
    requires { IsExact (past_kept past) bytes.old.items }
    ensures { let first = first_of (past_kept past.entry) bytes.old.items in
        OnOk result (bytes.new.items ≡ last_synced first first
        (acts_of (past_kept past.entry) bytes.old.items)) }
{
    let mut left = past;
    while let [.., kind] = left.calls {
        if let Kind::Synced = kind {
            break;
        }
        left = step_back(left, bytes)?;
    }
    Ok(())
}

impl Tape {
    ghost use Rattle.qc_disk.specs.Replay.{act_of, wrote, cut_to};
    ghost use Rattle.qc_disk.specs.Tape.{tape_first, tape_acts, tape_bytes, Applied, Untouched};

    pub(crate) fn new(bytes: Vec<u8>) -> Self
        ensures first { tape_first result ≡ bytes.items }
        ensures acts { tape_acts result ≡ [] }
        ensures bytes { tape_bytes result ≡ bytes.items }
    {
        let alloc = *bytes.allocator();
        Tape {
            bytes,
            records: Records::new(alloc),
        }
    }

    pub(crate) fn bytes(&self) -> &[u8]
        ensures { result.now ≡ tape_bytes self.now }
    {
        &self.bytes
    }

    /// How many calls there were.
    pub(crate) fn count(&self) -> usize
        ensures count { result ≡ length (tape_acts self.now) }
        ensures bounded { result < 2 ^ 63 }
    {
        self.records.count()
    }

    /// Does it to the bytes, and records it. Its time grows with the bytes that are written or cut off. Where
    /// memory is wanting, or a number of a write or a cut does not fit 32 bits, all stays as it was.
    pub(crate) fn apply(&mut self, deed: Deed, new: &[u8]) -> Result<(), AllocError>
        ensures ok { OnOk result (Applied self.old self.new (act_of deed new.now)) }
        ensures err { OnErr result (Untouched self.old self.new) }
    {
        match deed {
            Deed::Nothing => self.records.note(Kind::Nothing),
            Deed::Write(at) => self.write(at, new),
            Deed::Cut(to) => self.cut(to),
            Deed::Sync => self.records.note(Kind::Synced),
        }
    }

    fn write(&mut self, at: usize, new: &[u8]) -> Result<(), AllocError>
        ensures ok { OnOk result (Applied self.old self.new (wrote at new.now)) }
        ensures err { OnErr result (Untouched self.old self.new) }
    {
        let start = at.min(self.bytes.len());
        let over = new.len().min(self.bytes.len() - start);
        let added = new.len() - over;
        let change = Change::new(at, over, added)?;
        self.records.reserve(over)?;
        self.bytes.reserve(added)?;
        self.records
            .enter(Kind::Wrote, change, &self.bytes[start..start + over]);
        overwrite(&mut self.bytes, at, new);
        Ok(())
    }

    fn cut(&mut self, to: usize) -> Result<(), AllocError>
        ensures ok { OnOk result (Applied self.old self.new (cut_to to)) }
        ensures err { OnErr result (Untouched self.old self.new) }
    {
        let start = to.min(self.bytes.len());
        let over = self.bytes.len() - start;
        let change = Change::new(to, over, 0)?;
        self.records.reserve(over)?;
        self.records.enter(Kind::Cut, change, &self.bytes[start..]);
        self.bytes.truncate(to);
        Ok(())
    }

    /// What was there after the first calls, or what was synced then. Its time grows with the bytes that are there
    /// and with the calls that are undone.
    pub(crate) fn image_at(
        &self,
        alloc: Global,
        count: usize,
        done: bool,
    ) -> Result<Vec<u8>, AllocError>
        requires { count ≤ length (tape_acts self.now) }
        ensures { IfOk result (λ bytes. bytes.items ≡ image_after (tape_first self.now)
            (take count (tape_acts self.now)) done) }
    {
        let mut bytes = self.bytes.to_vec(alloc)?;
        let past = rewind(self.records.past(), &mut bytes, count)?;
        if !done {
            rewind_to_sync(past, &mut bytes)?;
        }
        Ok(bytes)
    }
}
