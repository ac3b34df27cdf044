//! How a user transaction of a client commits.
ghost use Rattle.std.specs.Prelude.{◌≡◌, true, IsTrue, length, OnOk};
ghost use Rattle.qc_event.specs.History.{is_ready};
ghost use Rattle.qc_event.specs.Seats.{ledger_seat};
ghost use Rattle.qc_desk.specs.Entries.{IsOlder};
ghost use Rattle.qc_desk.specs.Rules.{IsClient};
ghost use Rattle.rows_serve.specs.Requests.{RequestStands};

use crate::client::Request;
use qc_codec::{Logged, Names};
use qc_desk::{Desk, DeskNo, Pass, Store};
use qc_event::{Answer, Name};
use std::sync::Wait;

// The ledger commits a ready top, where it has not ended.
fn log<N: Store, R: Wait>(
    rt: &R,
    desk: &Desk<N>,
    pass: &mut Pass<N>,
    ledger: &mut Pass<N>,
    top: &Name,
) -> Result<(), DeskNo>
    requires client { IsClient pass.old }
    requires ready { IsTrue (is_ready pass.old.seen top.now) }
    requires is_top { length top.now ≡ 1 }
    requires ledger { (ledger.old.live ≡ true) × (ledger.old.number ≡ ledger_seat) }
    ensures same { (pass.new.live ≡ pass.old.live) × (pass.new.number ≡ pass.old.number)
        × (pass.new.out ≡ pass.old.out) }
    ensures older { OnOk result (IsOlder pass.old.seen pass.new.seen) }
    ensures ledger { (ledger.new.live ≡ true) × (ledger.new.number ≡ ledger_seat) }
{
    desk.show(rt, ledger, pass);
    if desk.ended(rt, ledger, top).is_some() {
        return Err(DeskNo::Ended);
    }
    desk.finish(rt, ledger, pass, top)?;
    Ok(())
}

/// The user transaction of a request commits: one below a top at once, a top by the ledger's word, once it is ready. What
/// is logged of a top is told.
pub(crate) fn commit<N: Store, R: Wait>(
    rt: &R,
    desk: &Desk<N>,
    pass: &mut Pass<N>,
    ledger: &mut Pass<N>,
    request: &Request,
) -> Result<Option<Logged>, DeskNo>
    requires client { IsClient pass.old }
    requires stands { RequestStands pass.old.seen request.now }
    requires ledger { (ledger.old.live ≡ true) × (ledger.old.number ≡ ledger_seat) }
    ensures same { (pass.new.live ≡ pass.old.live) × (pass.new.number ≡ pass.old.number)
        × (pass.new.out ≡ pass.old.out) }
    ensures older { OnOk result (IsOlder pass.old.seen pass.new.seen) }
    ensures ledger { (ledger.new.live ≡ true) × (ledger.new.number ≡ ledger_seat) }
{
    let user = request.user;
    if user.len() != 1 {
        pass.known();
        desk.end(rt, pass, &user, &Answer::Nothing)?;
        return Ok(None);
    }
    let aborted = desk.ready(rt, pass, &user)?;
    log(rt, desk, pass, ledger, &user)?;
    Ok(Some(Logged {
        top: user,
        aborted: Names::new(aborted),
    }))
}
