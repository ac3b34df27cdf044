//! The desk: one history behind a lock.
ghost use Rattle.std.specs.Prelude.{◌≡◌, ◌≤◌, [], true, length, reverse, IfOk};
ghost use Rattle.qc_event.specs.Tables.{setting_of};
ghost use Rattle.qc_event.specs.History.{limit};
ghost use Rattle.qc_event.specs.Legal.{Legal};
ghost use Rattle.qc_desk.specs.Calling.{Shown};
ghost use Rattle.qc_desk.specs.Entries.{IsOlder};
ghost use Rattle.qc_desk.specs.Known.{AreKnown, IsKnown};
ghost use Rattle.qc_desk.specs.Rules.{first_of_all, knows, pass, note, joined, IsClient, IsNewTo, IsSplit, IsSettled};

use crate::locked::Locked;
use crate::pass::Pass;
use crate::steps::draw;
use crate::store::{Room, Store};
use crate::view::{Counts, Gives, Lends, Notes, Unused, View};
use atomic_table::{Seat, Table};
use qc_event::{Base, Entry};
use qc_history::History;
use qc_trail::Trail;
use std::alloc::{AllocError, Global};
use std::marker::PhantomData;
use std::sync::{Mutex, Wait};

// How many splits of the first pass draw no number: those of the ledger and of sixteen copies.
const LOW: u32 = 17;

// The number of a note.
const NOTE: u32 = 0xffff_ffff;

/// The one history, behind a lock. Each call takes the lock once, so it is one step for all others, and tells what the
/// passes that it leaves know: what they have seen is legal, and which of it is their own.
#[derive(Drop)]
pub struct Desk<N: Store> {
    pub(crate) room: Room,
    pub(crate) locked: Mutex<Locked<N>>,
    pub(crate) base: Base,
    pub(crate) epoch: u32,
    ghost named: { room.shared.table_id ≡ N.desk },
    ghost two: { room.shared.table_id.words ≡ 2 },
    ghost over: { base ≡ N.base },
    ghost some: { 1 ≤ epoch },
}

/// A desk without a name.
#[derive(Drop)]
pub struct Blank {
    pub(crate) room: Room,
    pub(crate) seat: Seat<Entry, View>,
    pub(crate) history: History,
    pub(crate) base: Base,
    pub(crate) epoch: u32,
    ghost seat_is: { (seat.table_id ≡ room.shared.table_id) × (seat.me ≡ (first_of_all, [])) },
    ghost two: { room.shared.table_id.words ≡ 2 },
    ghost none: { history ≡ [] },
    ghost some: { 1 ≤ epoch },
}

impl Blank {
    /// A desk without a name, with an empty history, over the tuples with which a run starts. An error is want of
    /// memory.
    pub fn new(alloc: Global, base: Base, epoch: u32) -> Result<Blank, AllocError>
        requires { 1 ≤ epoch }
        ensures { IfOk result (λ b. (b.base ≡ base) × (b.epoch ≡ epoch)) }
    {
        let (room, seat) = Table::of_words(alloc, &[0, 18], &())?;
        Ok(Blank {
            room,
            seat,
            history: History::new(alloc),
            base,
            epoch,
        })
    }

    /// The desk and its first pass, which has seen nothing. It takes no memory.
    pub fn name<N: Store>(self) -> (Desk<N>, Pass<N>)
        requires desk { self.room.shared.table_id ≡ N.desk }
        requires base { self.base ≡ N.base }
        ensures pass { result.1 ≡ pass 0 [] }
        ensures epoch { result.0.epoch ≡ self.epoch }
        ensures known { IsKnown (setting_of N.table N.base) result.1 }
    {
        let Blank {
            room,
            mut seat,
            history,
            base,
            epoch,
        } = self;
        let right = room.shared.split_seat::<Lends>(&mut seat);
        let locked = Locked {
            history,
            seat: right,
            of: PhantomData,
        };
        (
            Desk {
                room,
                locked: Mutex::new(locked),
                base,
                epoch,
            },
            Pass {
                number: 0,
                count: 0,
                seat,
                of: PhantomData,
            },
        )
    }
}

impl<N: Store> Desk<N> {
    /// A pass with a new number that has seen the same. The first pass gives 1 to 17 in turn, for the ledger and the
    /// copies; every other number is above 17, and is out with the pass until it is joined back. It takes no memory.
    pub fn split<R: Wait>(&self, rt: &R, pass: &mut Pass<N>) -> Pass<N>
        requires client { IsClient pass.old }
        ensures split { IsSplit pass.old pass.new result }
        ensures other { IsNewTo pass.old result.number }
        ensures known { AreKnown (setting_of N.table N.base) pass.new result }
    {
        if pass.number == 0 && pass.count < LOW {
            pass.count += 1;
            self.room.shared.load::<Unused>(&mut pass.seat, 0);
            let seat = self.room.shared.split_seat::<Counts>(&mut pass.seat);
            return Pass {
                number: pass.count,
                count: 0,
                seat,
                of: PhantomData,
            };
        }
        let number = draw(rt, &self.room, &mut pass.seat);
        let seat = self.room.shared.split_seat::<Gives>(&mut pass.seat);
        Pass {
            number,
            count: 0,
            seat,
            of: PhantomData,
        }
    }

    /// A note: it has seen the same, and appends nothing. It takes no memory.
    pub fn note(&self, pass: &mut Pass<N>) -> Pass<N>
        ensures { (result ≡ note pass.old.seen) × (pass.new ≡ pass.old) }
    {
        Pass {
            number: NOTE,
            count: 0,
            seat: self.room.shared.split_seat::<Notes>(&mut pass.seat),
            of: PhantomData,
        }
    }

    /// The other pass has then seen what the first has: the history at this step. It takes no memory.
    pub fn show<R: Wait>(&self, rt: &R, pass: &mut Pass<N>, seer: &mut Pass<N>)
        ensures pass { Shown pass.old pass.new }
        ensures seer { Shown seer.old seer.new }
        ensures same { seer.new.seen ≡ pass.new.seen }
        ensures bounded { length seer.new.seen ≤ limit }
        ensures known { AreKnown (setting_of N.table N.base) pass.new seer.new }
    {
        let mut locked = self.locked.lock(rt);
        locked.look(&self.room, pass);
        locked.look(&self.room, seer);
    }

    /// A pass with nothing out is joined into a pass, which has then seen what both had seen. Its number, its
    /// entries and its kin join the pass's kin. It takes no memory.
    pub fn join<R: Wait>(&self, rt: &R, pass: &mut Pass<N>, other: Pass<N>)
        requires client { IsClient pass.old }
        requires other { (other.live ≡ true) × (other.out ≡ []) }
        ensures seen { IsOlder pass.old.seen pass.new.seen × IsOlder other.seen pass.new.seen }
        ensures joined { pass.new ≡ knows pass.new.seen (joined pass.old other) }
        ensures bounded { length pass.new.seen ≤ limit }
        ensures known { IsKnown (setting_of N.table N.base) pass.new }
    {
        let mut locked = self.locked.lock(rt);
        locked.join(&self.room, pass, other);
    }

    /// The start tuples and the history, the oldest entry first. Each entry of a client is the pass's own, or that
    /// of one that was joined into it. It takes no memory.
    pub fn close(self, pass: Pass<N>) -> (Base, Trail)
        requires first { (pass.live ≡ true) × (pass.number ≡ 0) × (pass.out ≡ []) }
        ensures base { result.0 ≡ N.base }
        ensures legal { Legal (setting_of N.table N.base) (reverse result.1) }
        ensures bounded { length result.1 ≤ limit }
        ensures settled { IsOlder pass.seen (reverse result.1)
            × IsSettled (reverse result.1) pass }
    {
        let Desk {
            room,
            locked,
            base,
            ..
        } = self;
        (base, locked.into_inner().close(room, pass))
    }
}
