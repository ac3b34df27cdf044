//! A journal over any disk.
ghost use Rattle.std.specs.Prelude.{◌≡◌, ◌+◌, ◌≤◌, ◌<◌, ◌^◌, ◌⊎◌, ℕ, List, [], ◌∷◌, ◌++◌, length, IsTrue, ◌↔◌, IfOk, IfErr, OnOk, OnErr, IfSome, IsSome, IsErrOf, IsErrAnd, Err, None, if◌then◌else◌, option_map};
ghost use Rattle.qc_disk.specs.Disk.{HasCause, CountsOnce, Only, Steps, LeavesOnly, FallsAway, Grows, written};
ghost use Rattle.qc_journal.specs.Image.{HasRecords, HasAt, IsBroken, behind_gate, bodies_of};
ghost use Rattle.qc_journal.specs.State.{IsUpState, missing_at, hand_of, hand_end, hand_size};
ghost use Rattle.qc_journal.specs.Device.{IsAlike, LeftOrAlike, made_ready};
ghost use Rattle.qc_journal.specs.Fault.{IsOfDevice, IsOfReading};
ghost use Rattle.qc_journal.specs.declared.fault.Fault.TheVariants.{Broken, Full};

use crate::device::{cut_synced, gate_is_open, synced_len, write_synced};
use crate::fault::Fault;
use crate::image::{Body, block_of};
use crate::reading::{prepare, read_records};
use qc_disk::Disk;
use std::alloc::Global;

/// What a journal is ready for.
#[derive(Drop)]
pub(crate) enum State {
    /// The gate stands closed, with a number of bytes missing up to it. Only a disk that lost bytes misses any.
    Up { missing: u64 },
    /// It is not known what stands; the body of a record that may is in hand.
    Down(Option<Body>),
}

/// More bytes than four bytes can say.
const MANY: usize = 4_294_967_296;

/// A row of records on a disk, and a place for the next.
#[derive(Drop)]
pub struct Journal<D: Disk> {
    alloc: Global,
    disk: D,
    place: u64,
    limit: u64,
    state: State,
    ghost gate_within: { place + 1 ≤ (D.view disk).size + missing_at place state },
    ghost gap_within: { missing_at place state ≤ place + 1 },
    ghost hand_fits: { hand_end place (hand_of state) ≤ limit },
    ghost hand_short: { hand_size (hand_of state) < 2 ^ 32 },
}

impl<D: Disk> Journal<D> {
    ghost use Rattle.qc_journal.specs.Journal.{disk_of, place_of, limit_of, in_hand, IsUp, IsDown, IsTooLong, with_hand, behind_hand, Keeps, KeepsOrNone, AppendLeaves, disk_after};

    /// Syncs, and reads the records. A disk of at most one byte is made ready. A refusal hands the disk back.
    pub fn mount(alloc: Global, disk: D, limit: u64) -> Result<(Journal<D>, Vec<Body>), (D, Fault)>
        ensures up { IfOk result (λ mounted. IsUp mounted.0) }
        ensures limit { IfOk result (λ mounted. limit_of mounted.0 ≡ limit) }

        // Where the disk tells its bytes, they have these records, and from now on each image has.
        ensures records { IfOk result (λ mounted. IfSome (D.view disk).content
            (HasRecords (bodies_of mounted.1.items))) }
        ensures keeps { IfOk result (λ mounted. IsSome (D.view disk).content → Keeps mounted.0
            (bodies_of mounted.1.items)) }
        ensures content { IfOk result (λ mounted. (D.view (disk_of mounted.0)).content ≡ option_map
            made_ready (D.view disk).content) }

        // Broken comes where the bytes are broken, and Full never.
        ensures broken { IfErr result (λ refused. (place : ℕ) → refused.1 ≡ Broken place
            → IfSome (D.view disk).content (IsBroken place)) }
        ensures fault { IfErr result (λ refused. IsOfReading refused.1) }
        ensures left { IfErr result (λ refused. Steps IsAlike (D.view disk).content
            (D.view refused.0).content) }

        ensures any_moment { LeavesOnly D.view disk (disk_after result)
            (LeftOrAlike (D.view disk).may_leave (D.view disk).content) }
        ensures grows { IsSome (D.view disk).content → (index : ℕ) (body : List ℕ)
            → Grows D.view disk (disk_after result) (HasAt index body) }
        ensures cause { HasCause (D.view disk).faults (D.view (disk_after result)).faults
            (IsErrAnd result (λ refused. refused.1 ≡ Fault.Disk)) }
        ensures counts_once { CountsOnce (D.view disk).faults (D.view (disk_after result)).faults
            (IsErrAnd result (λ refused. refused.1 ≡ Fault.Disk)) }
    {
        let mut disk = disk;
        match prepare(alloc, &mut disk) {
            Ok(found) => {
                let journal = Journal {
                    alloc,
                    disk,
                    place: found.place,
                    limit,
                    state: State::Up { missing: 0 },
                };
                Ok((journal, found.bodies))
            }
            Err(fault) => Err((disk, fault)),
        }
    }

    // Whether a body fits.
    fn has_room(&self, body: &[u8]) -> bool
        ensures { IsTrue result ↔ ((self.now.place + 6 + length body.now ≤ self.now.limit)
            × (length body.now < 2 ^ 32)) }
    {
        let limit = self.limit;
        match self.place.checked_add(6 + body.len() as u64) {
            Some(end) => end <= limit && body.len() < MANY,
            None => false,
        }
    }

    // How many bytes are missing up to the gate.
    fn missing(&self) -> u64
        requires { IsUp self.now }
        ensures { result ≡ missing_at self.now.place self.now.state }
    {
        match self.state {
            State::Up { missing } => missing,
            State::Down(_) => 0,
        }
    }

    /// Adds a record. From `Ok` on it is in each image.
    pub fn append(&mut self, body: &[u8]) -> Result<(), Fault>
        requires { IsUp self.old }

        // At `Ok` it is up behind the record. Full comes where the record would pass the limit, and nowhere else.
        ensures up { OnOk result (IsUp self.new) }
        ensures place { OnOk result (place_of self.new ≡ place_of self.old + 5 + length body.now) }
        ensures full { (result ≡ Err (Full (place_of self.old))) ↔ IsTooLong (place_of self.old)
            (limit_of self.old) body.now }
        ensures left { IfErr result (AppendLeaves self.old self.new body.now) }
        ensures limit { limit_of self.new ≡ limit_of self.old }

        // Where the disk tells its bytes, each image has the new record after `Ok`, and may have it after an error.
        ensures acknowledged { OnOk result ((bodies : List (List ℕ)) → Keeps self.old bodies
            → Keeps self.new (bodies ++ body.now ∷ [])) }
        ensures content { OnOk result ((bodies : List (List ℕ)) → Keeps self.old bodies
            → (D.view (disk_of self.new)).content ≡ option_map
            (written (place_of self.old) (1 ∷ behind_gate body.now))
            (D.view (disk_of self.old)).content) }
        ensures kept { OnErr result ((bodies : List (List ℕ)) → Keeps self.old bodies
            → Keeps self.new bodies) }

        // A crash at any moment of the call leaves the records from before it, with the new one or without.
        ensures any_moment { (bodies : List (List ℕ)) → Keeps self.old bodies
            → LeavesOnly D.view (disk_of self.old) (disk_of self.new)
            (λ image. HasRecords bodies image ⊎ HasRecords (bodies ++ body.now ∷ []) image) }

        // Of two moments of the call each image of the later has every record that all images of the earlier have.
        ensures grows { (bodies : List (List ℕ)) → Keeps self.old bodies
            → (index : ℕ) (had : List ℕ)
            → Grows D.view (disk_of self.old) (disk_of self.new) (HasAt index had) }
        ensures cause { HasCause (D.view (disk_of self.old)).faults
            (D.view (disk_of self.new)).faults (IsErrOf result Fault.Disk) }
        ensures counts_once { CountsOnce (D.view (disk_of self.old)).faults
            (D.view (disk_of self.new)).faults (IsErrOf result Fault.Disk) }
    {
        if !self.has_room(body) {
            return Err(Fault::Full { place: self.place });
        }
        let missing = self.missing();
        let held = body.to_vec(self.alloc)?;
        let block = block_of(self.alloc, missing, body)?;
        self.state = State::Down(Some(held));
        write_synced(&mut self.disk, self.place + 1 - missing, &block)?;
        write_synced(&mut self.disk, self.place, &[1])?;
        self.place += 5 + body.len() as u64;
        self.state = State::Up { missing: 0 };
        Ok(())
    }

    // Where the gate behind the record in hand is.
    fn behind_hand(&self) -> u64
        requires { IsSome (in_hand self.now) }
        ensures place { result ≡ behind_hand self.now.place (in_hand self.now) }
        ensures within { result + 1 ≤ self.now.limit }
    {
        match &self.state {
            State::Down(Some(body)) => self.place + 5 + body.len() as u64,
            _ => self.place,
        }
    }

    /// After a failed append, syncs and tells whether its body stands in the journal, which is then up.
    pub fn reopen(&mut self) -> Result<bool, Fault>
        requires { IsSome (in_hand self.old) }

        ensures up { OnOk result (IsUp self.new) }
        ensures place { IfOk result (λ stands. place_of self.new
            ≡ (if stands then behind_hand (place_of self.old) (in_hand self.old)
            else place_of self.old)) }
        ensures fault { IfErr result IsOfDevice }
        ensures in_hand { OnErr result (in_hand self.new ≡ in_hand self.old) }
        ensures place_err { OnErr result (place_of self.new ≡ place_of self.old) }
        ensures limit { limit_of self.new ≡ limit_of self.old }

        // Where the disk tells its bytes, each image has the body exactly where the answer says so.
        ensures tells { IfOk result (λ stands. (bodies : List (List ℕ)) → Keeps self.old bodies
            → Keeps self.new (if stands then with_hand bodies (in_hand self.old) else bodies)) }
        ensures kept { OnErr result ((bodies : List (List ℕ)) → Keeps self.old bodies
            → Keeps self.new bodies) }
        ensures content { (D.view (disk_of self.new)).content
            ≡ (D.view (disk_of self.old)).content }

        ensures any_moment { LeavesOnly D.view (disk_of self.old) (disk_of self.new)
            (D.view (disk_of self.old)).may_leave }
        ensures falls { FallsAway D.view (disk_of self.old) (disk_of self.new) }
        ensures cause { HasCause (D.view (disk_of self.old)).faults
            (D.view (disk_of self.new)).faults (IsErrOf result Fault.Disk) }
        ensures counts_once { CountsOnce (D.view (disk_of self.old)).faults
            (D.view (disk_of self.new)).faults (IsErrOf result Fault.Disk) }
    {
        let behind = self.behind_hand();
        let size = synced_len(&mut self.disk)?;
        let stands = gate_is_open(&mut self.disk, self.place, size)?;
        let place = if stands { behind } else { self.place };
        let missing = (place + 1).saturating_sub(size);
        self.place = place;
        self.state = State::Up { missing };
        Ok(stands)
    }

    /// Takes it down without a call of the disk, as a crash of its owner does. What was in hand stays in hand.
    pub fn close(&mut self)
        ensures down { IsDown self.new }
        ensures hand { in_hand self.new ≡ in_hand self.old }
        ensures disk { disk_of self.new ≡ disk_of self.old }
        ensures place { place_of self.new ≡ place_of self.old }
        ensures limit { limit_of self.new ≡ limit_of self.old }
        ensures kept { (bodies : List (List ℕ)) → Keeps self.old bodies → Keeps self.new bodies }
        ensures kept_or_none { (bodies : List (List ℕ)) → KeepsOrNone self.old bodies
            → KeepsOrNone self.new bodies }
    {
        if let State::Up { .. } = self.state {
            self.state = State::Down(None);
        }
    }

    /// Syncs and reads all records; then it is up. On refusal it is down, with in hand what was in hand before.
    pub fn reread(&mut self) -> Result<Vec<Body>, Fault>
        ensures up { OnOk result (IsUp self.new) }
        ensures down { OnErr result (IsDown self.new) }
        ensures in_hand { OnErr result (in_hand self.new ≡ in_hand self.old) }
        ensures place_err { OnErr result (place_of self.new ≡ place_of self.old) }
        ensures limit { limit_of self.new ≡ limit_of self.old }

        // Where the disk tells its bytes, they have these records.
        ensures records { IfOk result (λ found. IfSome (D.view (disk_of self.old)).content
            (HasRecords (bodies_of found.items))) }
        ensures tells { IfOk result (λ found. (bodies : List (List ℕ)) → Keeps self.old bodies
            → Keeps self.new (bodies_of found.items)) }
        ensures kept { OnErr result ((bodies : List (List ℕ)) → Keeps self.old bodies
            → Keeps self.new bodies) }

        // After a failed reset they are those from before it, or none.
        ensures reset_tells { IfOk result (λ found. (bodies : List (List ℕ))
            → KeepsOrNone self.old bodies → Keeps self.new (bodies_of found.items)
            × ((bodies_of found.items ≡ bodies) ⊎ (bodies_of found.items ≡ []))) }
        ensures reset_kept { OnErr result ((bodies : List (List ℕ)) → KeepsOrNone self.old bodies
            → KeepsOrNone self.new bodies) }
        ensures content { (D.view (disk_of self.new)).content
            ≡ (D.view (disk_of self.old)).content }

        // Broken comes where the bytes are broken, and Full never.
        ensures broken { (place : ℕ) → result ≡ Err (Broken place)
            → IfSome (D.view (disk_of self.old)).content (IsBroken place) }
        ensures fault { IfErr result IsOfReading }

        ensures any_moment { LeavesOnly D.view (disk_of self.old) (disk_of self.new)
            (D.view (disk_of self.old)).may_leave }
        ensures falls { FallsAway D.view (disk_of self.old) (disk_of self.new) }
        ensures cause { HasCause (D.view (disk_of self.old)).faults
            (D.view (disk_of self.new)).faults (IsErrOf result Fault.Disk) }
        ensures counts_once { CountsOnce (D.view (disk_of self.old)).faults
            (D.view (disk_of self.new)).faults (IsErrOf result Fault.Disk) }
    {
        self.close();
        let found = read_records(self.alloc, &mut self.disk)?;
        self.place = found.place;
        let missing = (found.place + 1).saturating_sub(found.size);
        self.state = State::Up { missing };
        Ok(found.bodies)
    }

    // Whether it has no record, so that the gate at the front stands closed.
    fn is_bare(&self) -> bool
        requires { IsUp self.now }
        ensures { IsTrue result ↔ ((self.now.place ≡ 0)
            × (missing_at self.now.place self.now.state ≡ 0)) }
    {
        self.place == 0 && self.missing() == 0
    }

    // Takes it down, with the gate at the front closed. One that stands closed is not written again: a torn write may
    // leave it open before what stands behind it.
    fn shut_front(&mut self) -> Result<(), Fault>
        requires { IsUp self.old }
        ensures size { OnOk result (1 ≤ (D.view (disk_of self.new)).size) }
        ensures down { IsDown self.new }
        ensures in_hand { in_hand self.new ≡ None }
        ensures place { place_of self.new ≡ place_of self.old }
        ensures limit { limit_of self.new ≡ limit_of self.old }
        ensures fault { IfErr result IsOfDevice }
        ensures shut { OnOk result ((bodies : List (List ℕ)) → Keeps self.old bodies
            → KeepsOrNone self.new []) }
        ensures kept { OnErr result ((bodies : List (List ℕ)) → Keeps self.old bodies
            → KeepsOrNone self.new bodies) }
        ensures any_moment { (bodies : List (List ℕ)) → Keeps self.old bodies
            → LeavesOnly D.view (disk_of self.old) (disk_of self.new)
            (λ image. HasRecords bodies image ⊎ HasRecords [] image) }
        ensures stays_empty { (bodies : List (List ℕ)) → Keeps self.old bodies
            → Grows D.view (disk_of self.old) (disk_of self.new) (HasRecords []) }
        ensures cause { HasCause (D.view (disk_of self.old)).faults
            (D.view (disk_of self.new)).faults (IsErrOf result Fault.Disk) }
        ensures counts_once { CountsOnce (D.view (disk_of self.old)).faults
            (D.view (disk_of self.new)).faults (IsErrOf result Fault.Disk) }
    {
        let is_bare = self.is_bare();
        self.state = State::Down(None);
        if is_bare {
            return Ok(());
        }
        write_synced(&mut self.disk, 0, &[0])?;
        Ok(())
    }

    /// Drops all records. During it each image has them or none. After an error it is down, and `reread` tells which.
    pub fn reset(&mut self) -> Result<(), Fault>
        requires { IsUp self.old }

        // At `Ok` it is up at the front of one byte.
        ensures up { OnOk result (IsUp self.new) }
        ensures place { OnOk result (place_of self.new ≡ 0) }
        ensures size { OnOk result ((D.view (disk_of self.new)).size ≡ 1) }
        ensures fault { IfErr result IsOfDevice }
        ensures down { OnErr result (IsDown self.new) }
        ensures in_hand { OnErr result (in_hand self.new ≡ None) }
        ensures place_err { OnErr result (place_of self.new ≡ place_of self.old) }
        ensures limit { limit_of self.new ≡ limit_of self.old }

        // Where the disk tells its bytes, an image is that byte after `Ok`, and after an error has all records or none.
        ensures emptied { OnOk result ((bodies : List (List ℕ)) → Keeps self.old bodies
            → Keeps self.new []) }
        ensures durable { OnOk result (Only (D.view (disk_of self.new)).content
            (D.view (disk_of self.new)).may_leave) }
        ensures kept { OnErr result ((bodies : List (List ℕ)) → Keeps self.old bodies
            → KeepsOrNone self.new bodies) }

        // A crash at any moment of the call leaves the records from before it, or none.
        ensures any_moment { (bodies : List (List ℕ)) → Keeps self.old bodies
            → LeavesOnly D.view (disk_of self.old) (disk_of self.new)
            (λ image. HasRecords bodies image ⊎ HasRecords [] image) }

        // Of two moments of the call, where no image of the earlier has a record, none of the later has.
        ensures stays_empty { (bodies : List (List ℕ)) → Keeps self.old bodies
            → Grows D.view (disk_of self.old) (disk_of self.new) (HasRecords []) }
        ensures cause { HasCause (D.view (disk_of self.old)).faults
            (D.view (disk_of self.new)).faults (IsErrOf result Fault.Disk) }
        ensures counts_once { CountsOnce (D.view (disk_of self.old)).faults
            (D.view (disk_of self.new)).faults (IsErrOf result Fault.Disk) }
    {
        self.shut_front()?;
        cut_synced(&mut self.disk, 1)?;
        self.place = 0;
        self.state = State::Up { missing: 0 };
        Ok(())
    }

    /// Whether it is up.
    pub fn is_up(&self) -> bool
        ensures { IsTrue result ↔ IsUp self.now }
    {
        matches!(self.state, State::Up { .. })
    }

    /// The disk.
    pub fn into_disk(self) -> D
        ensures { result ≡ disk_of self }
    {
        self.disk
    }
}
