//! A server whose copy is down.
ghost use Rattle.std.specs.Prelude.{◌≡◌, true, length, IfOk, IsErrOf};
ghost use Rattle.qc_event.specs.declared.short.Short.TheVariants.{Room};
ghost use Rattle.qc_event.specs.History.{limit};
ghost use Rattle.qc_event.specs.Tables.{setting_of};
ghost use Rattle.qc_desk.specs.Consulting.{HasAsked};
ghost use Rattle.qc_desk.specs.Known.{IsKnown};
ghost use Rattle.qc_desk.specs.Calling.{SeesMore};
ghost use Rattle.qc_mail.specs.Serving.{HasAnswered};

use qc_desk::{Desk, Pass, Store};
use qc_event::{Answered, Ask, Short, Why};
use qc_mail::Serve;
use std::sync::{Mutex, Wait};

/// The pass of copy 0, as it lies behind a lock.
#[derive(Drop)]
pub struct CopyPass<N: Store> {
    pub pass: Pass<N>,
    ghost own: { (pass.live ≡ true) × (pass.number ≡ 2) },
}

/// The one copy of a store, which is down: it answers so to each request.
#[derive(Drop)]
pub struct Downs<'a, N: Store> {
    pub desk: &'a Desk<N>,
    pub locked: Mutex<CopyPass<N>>,
    ghost one: { length N.base ≡ 1 },
}

impl<'a, N: Store> Serve<N> for Downs<'a, N> {
    fn serve<R: Wait>(&self, rt: &R, seer: &mut Pass<N>, ask: &Ask) -> Result<Answered, Short> {
        let mut copy = self.locked.lock(rt);
        down(rt, self.desk, &mut copy, seer, ask)
    }
}

// The copy says that it was unable to serve a request, since it is down.
fn down<N: Store, R: Wait>(
    rt: &R,
    desk: &Desk<N>,
    copy: &mut CopyPass<N>,
    seer: &mut Pass<N>,
    ask: &Ask,
) -> Result<Answered, Short>
    requires copy { ask.now.copy ≡ 0 }
    requires asked { HasAsked seer.old.seen ask.now }
    ensures answered { IfOk result (HasAnswered ask.now.copy seer.new.seen ask.now) }
    ensures room { IsErrOf result Room → length seer.new.seen ≡ limit }
    ensures seer { SeesMore seer.old seer.new }
    ensures known { IsKnown (setting_of N.table N.base) seer.new }
{
    desk.unable(rt, &mut copy.pass, seer, &ask.access, Why::Down)?;
    Ok(Answered::Down)
}
