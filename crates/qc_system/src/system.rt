//! A system: a desk, a ledger and the copies of a store.
ghost use Rattle.std.specs.Prelude.{◌≡◌, ◌≤◌, ◌<◌, [], true, IfOk, IfErr, IsErrOf, IsTrue, OnOk, is_some, length};
ghost use Rattle.qc_codec.specs.Bodies as body;
ghost use Rattle.qc_codec.specs.declared.record.LedgerRecord.TheVariants.{Top};
ghost use Rattle.qc_event.specs.Base.{IsProper};
ghost use Rattle.qc_event.specs.declared.short.Short.TheVariants.{Room};
ghost use Rattle.qc_event.specs.History.{end, is_ready, limit};
ghost use Rattle.qc_event.specs.Listed.{listed};
ghost use Rattle.qc_event.specs.Tables.{setting_of};
ghost use Rattle.qc_desk.specs.Calling.{SeesMore};
ghost use Rattle.qc_desk.specs.Consulting.{HasAsked};
ghost use Rattle.qc_desk.specs.Known.{IsKnown};
ghost use Rattle.qc_desk.specs.Answers.{HasAnswered};
ghost use Rattle.qc_system.specs.Kept.{HasRefused};

use crate::boxed::Boxed;
use crate::four::Four;
use crate::held::Held;
use crate::held_ledger::HeldLedger;
use crate::mounting::Mounting;
use qc_desk::{Desk, Pass};
use qc_disk::Disk;
use qc_event::{Answered, Ask, Name, Short};
use qc_ledger::LedgerNo;
use std::sync::{Mutex, Wait};

/// A system: the desk, the ledger and the copies of a store. Threads share it; each site and the ledger stands in a lock
/// of its own.
#[derive(Drop)]
pub struct System<D: Disk + Drop, N: Mounting>
where
    Boxed<D>: Disk,
{
    pub(crate) desk: Desk<N>,
    pub(crate) ledger: Mutex<HeldLedger<D, N>>,
    pub(crate) copies: u8,
    pub(crate) from0: Four<D, N, 0, 1, 2, 3>,
    pub(crate) from4: Four<D, N, 4, 5, 6, 7>,
    pub(crate) from8: Four<D, N, 8, 9, 10, 11>,
    pub(crate) from12: Four<D, N, 12, 13, 14, 15>,
    ghost few: { copies ≤ 16 },
    ghost whole: { copies ≡ length N.base },
    ghost proper: { IsProper (setting_of N.table N.base) },
}

// Each copy's arm.
macro_rules! at_copy {
    ($copy:expr, $site:ident, $call:expr, $system:ident: $($k:literal $four:ident $s:ident)*) => {
        match $copy {
            $($k => {
                let $site = &$system.$four.$s;
                $call
            })*
            _ => unreachable!(),
        }
    };
}

// A site that is there serves a request.
fn serve_at<D: Disk + Drop, N: Mounting, const C: u8, R: Wait>(
    rt: &R,
    desk: &Desk<N>,
    site: &Option<Mutex<Held<D, N, C>>>,
    seer: &mut Pass<N>,
    ask: &Ask,
) -> Result<Answered, Short>
    requires there { is_some site.now ≡ true }
    requires proper { IsProper (setting_of N.table N.base) }
    requires copy { ask.now.copy ≡ C }
    requires asked { HasAsked seer.old.seen ask.now }
    ensures answered { IfOk result (HasAnswered ask.now.copy seer.new.seen ask.now) }
    ensures room { IsErrOf result Room → length seer.new.seen ≡ limit }
    ensures seer { SeesMore seer.old seer.new }
    ensures known { IsKnown (setting_of N.table N.base) seer.new }
{
    match site {
        Some(lock) => lock.lock(rt).serve(rt, desk, seer, ask),
        None => unreachable!(),
    }
}

// A site that is there crashes.
fn crash_at<D: Disk + Drop, N: Mounting, const C: u8, R: Wait>(
    rt: &R,
    site: &Option<Mutex<Held<D, N, C>>>,
)
    requires there { is_some site.now ≡ true }
{
    match site {
        Some(lock) => lock.lock(rt).crash(),
        None => unreachable!(),
    }
}

impl<D: Disk + Drop, N: Mounting> System<D, N> {
    /// The desk.
    pub fn desk(&self) -> &Desk<N>
        ensures { result.now ≡ self.now.desk }
    {
        &self.desk
    }

    /// How many copies there are.
    pub fn copies(&self) -> u8
        ensures { result ≡ length N.base }
    {
        self.copies
    }

    /// Its copy serves a request that the seer saw. The seer has then seen what the answer rests on.
    pub fn serve<R: Wait>(&self, rt: &R, seer: &mut Pass<N>, ask: &Ask) -> Result<Answered, Short>
        requires copy { ask.now.copy < length N.base }
        requires asked { HasAsked seer.old.seen ask.now }
        ensures answered { IfOk result (HasAnswered ask.now.copy seer.new.seen ask.now) }
        ensures room { IsErrOf result Room → length seer.new.seen ≡ limit }
        ensures seer { SeesMore seer.old seer.new }
        ensures known { IsKnown (setting_of N.table N.base) seer.new }
    {
        at_copy!(ask.copy, site, serve_at(rt, &self.desk, site, seer, ask), self: 0 from0 s0 1 from0 s1 2 from0 s2 3 from0 s3 4 from4 s0 5 from4 s1 6 from4 s2 7 from4 s3 8 from8 s0 9 from8 s1 10 from8 s2 11 from8 s3 12 from12 s0 13 from12 s1 14 from12 s2 15 from12 s3)
    }

    /// A copy crashes: it is down until it serves again.
    pub fn crash<R: Wait>(&self, rt: &R, copy: u8)
        requires copy { copy < length N.base }
    {
        at_copy!(copy, site, crash_at(rt, site), self: 0 from0 s0 1 from0 s1 2 from0 s2 3 from0 s3 4 from4 s0 5 from4 s1 6 from4 s2 7 from4 s3 8 from8 s0 9 from8 s1 10 from8 s2 11 from8 s3 12 from12 s0 13 from12 s1 14 from12 s2 15 from12 s3)
    }

    /// The ledger logs a ready top, with the names that are listed of it. The pass has then seen what the answer rests on.
    pub fn log_top<R: Wait>(
        &self,
        rt: &R,
        pass: &mut Pass<N>,
        top: &Name,
        aborted: &[Name],
    ) -> Result<(), LedgerNo>
        requires is_top { length top.now ≡ 1 }
        requires ready { IsTrue (is_ready pass.old.seen top.now) }
        requires proper { body.ledger.fits (Top top.now aborted.now) }
        requires listed { aborted.now ≡ listed pass.old.seen top.now }
        ensures ended { OnOk result (IsTrue (is_some (end pass.new.seen top.now))) }
        ensures refused { IfErr result (HasRefused pass.new.seen top.now) }
        ensures pass { SeesMore pass.old pass.new }
        ensures known { IsKnown (setting_of N.table N.base) pass.new }
    {
        self.ledger.lock(rt).log(rt, &self.desk, pass, top, aborted)
    }
}
