//! How a site grants what is free: it writes the grant, and then enters it.
ghost use Rattle.std.specs.Prelude.{◌≡◌, ◌⊎◌, true, false, IfErr, OnOk, OnErr, IsErrOf, IfSome, None, Some};
ghost use Rattle.qc_config.specs.Tuple.{after};
ghost use Rattle.qc_event.specs.Dead.{dead};
ghost use Rattle.qc_event.specs.Grants.{grant_with, MayGrant};
ghost use Rattle.qc_event.specs.declared.event.Answered.TheVariants.{Granted};
ghost use Rattle.qc_event.specs.Base.{IsProper};
ghost use Rattle.qc_event.specs.Seats.{copy_seat};
ghost use Rattle.qc_event.specs.Seen.{seen};
ghost use Rattle.qc_event.specs.Tables.{setting_of};
ghost use Rattle.qc_journal.specs.Journal.{IsDown, IsUp};
ghost use Rattle.qc_desk.specs.Calling.{SeesMore};
ghost use Rattle.qc_ledger.specs.Runs.{Costs, CostsOnce};
ghost use Rattle.qc_desk.specs.Consulting.{HasAsked};
ghost use Rattle.qc_site.specs.AtDesk.{LeavesKnown};
ghost use Rattle.qc_site.specs.Log.{log_journal};
ghost use Rattle.qc_site.specs.Serving as words;

use crate::log::GrantLog;
use crate::replica::{Replica, grant_of};
use crate::serve::ServeNo;
use crate::site::Site;
use qc_config::Tuple;
use qc_desk::{Desk, Pass, Store};
use qc_disk::Disk;
use qc_event::{Ask, Short};
use qc_journal::Fault;
use std::sync::Wait;

// What a fault of the journal is to a request.
fn of_fault(fault: &Fault) -> ServeNo
    ensures { result ≡ words.of_fault fault.now }
{
    match fault {
        Fault::Disk | Fault::Broken { .. } => ServeNo::Down,
        Fault::Full { .. } => ServeNo::Full,
        Fault::Memory => ServeNo::Short(Short::Memory),
    }
}

// After a fault of the journal: a copy lets go of the grant in hand where the journal is up, and is down where not.
fn fall<D: Disk, N: Store, const C: u8>(log: &GrantLog<D>, replica: &mut Replica<N, C>)
    ensures pass { replica.new.pass ≡ replica.old.pass }
    ensures either { ((IsUp (log_journal log.now)) × (replica.new.hand ≡ None)
        × (replica.new.up ≡ replica.old.up))
        ⊎ ((IsDown (log_journal log.now)) × (replica.new.hand ≡ replica.old.hand)
        × (replica.new.up ≡ false)) }
{
    if log.is_up() {
        replica.drop_hand();
    } else {
        replica.forget();
    }
}

impl<D: Disk, N: Store, const C: u8> Site<D, N, C> {
    ghost use Rattle.qc_site.specs.Calls.{empty_handed, site_state, HasEnded, SiteBecame, HasServed, ServeSays};
    ghost use Rattle.qc_site.specs.Sites.{IsFullFor, IsLeftBy, IsTooLongFor};

    // Writes the grant in hand.
    fn write(&mut self, ask: &Ask, tuple: &Tuple) -> Result<(), ServeNo>
        requires proper { IsProper (setting_of N.table N.base) }
        requires up { self.old.replica.up ≡ true }
        requires hand { self.old.replica.hand ≡ Some (grant_with ask.now tuple.now) }
        requires may { IfSome self.old.replica.hand (MayGrant (setting_of N.table N.base)
            self.old.replica.pass.seen (copy_seat C) C) }
        requires alive { dead self.old.replica.pass.seen ask.now.access ≡ None }
        requires asked { HasAsked self.old.replica.pass.seen ask.now }
        requires tuple { tuple.now ≡ after
            (seen N.base self.old.replica.pass.seen ask.now.copy ask.now.rec) ask.now.op }
        ensures up { OnOk result (self.new.replica.up ≡ true) }
        ensures hand { OnOk result (self.new.replica.hand ≡ self.old.replica.hand) }
        ensures journal { OnOk result (IsUp (log_journal self.new.log)) }
        ensures kept { IsLeftBy ask.now None self.new.replica.hand }
        ensures within { OnOk result (HasEnded ask.now (site_state self.new) tuple.now) }
        ensures refused { IfErr result (ServeSays (site_state self.new)) }
        ensures pass { self.new.replica.pass ≡ self.old.replica.pass }
        ensures became { SiteBecame (setting_of N.table N.base) C (Some ask.now)
            (empty_handed (site_state self.old)) (site_state self.new) }
        ensures strange { self.new.strange ≡ self.old.strange }
        ensures full { IsErrOf result ServeNo.Full → IsFullFor (setting_of N.table N.base) C ask.now
            self.new.replica.pass.seen self.new.log }
        ensures fits { OnOk result (IsTooLongFor self.old.log ask.now tuple.now → ⊥) }
        ensures untouched { IsErrOf result ServeNo.Full
            → log_journal self.new.log ≡ log_journal self.old.log }
        ensures cause { Costs (log_journal self.old.log) (log_journal self.new.log)
            (IsErrOf result ServeNo.Down) }
        ensures counts_once { CostsOnce (log_journal self.old.log) (log_journal self.new.log)
            (IsErrOf result ServeNo.Down) }
    {
        self.replica.fits(self.log.copies, ask, tuple);
        match self.log.write(&grant_of(ask, tuple)) {
            Ok(()) => Ok(()),
            Err(fault) => {
                fall(&self.log, &mut self.replica);
                Err(of_fault(&fault))
            }
        }
    }

    /// Writes the grant in hand, and enters it.
    pub(crate) fn admit<R: Wait>(
        &mut self,
        rt: &R,
        desk: &Desk<N>,
        seer: &mut Pass<N>,
        ask: &Ask,
        tuple: &Tuple,
    ) -> Result<(), ServeNo>
        requires proper { IsProper (setting_of N.table N.base) }
        requires up { self.old.replica.up ≡ true }
        requires hand { self.old.replica.hand ≡ Some (grant_with ask.now tuple.now) }
        requires may { IfSome self.old.replica.hand (MayGrant (setting_of N.table N.base)
            self.old.replica.pass.seen (copy_seat C) C) }
        requires alive { dead self.old.replica.pass.seen ask.now.access ≡ None }
        requires asked { HasAsked self.old.replica.pass.seen ask.now }
        requires tuple { tuple.now ≡ after
            (seen N.base self.old.replica.pass.seen ask.now.copy ask.now.rec) ask.now.op }
        ensures served { OnOk result (HasServed C ask.now seer.new
            (empty_handed (site_state self.old)) (site_state self.new) (Granted tuple.now)) }
        ensures refused { IfErr result (ServeSays (site_state self.new)) }
        ensures err { OnErr result (self.new.replica.pass.mine ≡ self.old.replica.pass.mine) }
        ensures left { IsLeftBy ask.now None self.new.replica.hand }
        ensures within { OnOk result (HasEnded ask.now (site_state self.new) tuple.now) }
        ensures became { SiteBecame (setting_of N.table N.base) C (Some ask.now)
            (empty_handed (site_state self.old)) (site_state self.new) }
        ensures strange { self.new.strange ≡ self.old.strange }
        ensures seer { SeesMore seer.old seer.new }
        ensures known { OnOk result
            (LeavesKnown (setting_of N.table N.base) C self.new.replica.pass seer.new) }
        ensures full { IsErrOf result ServeNo.Full → IsFullFor (setting_of N.table N.base) C ask.now
            self.new.replica.pass.seen self.new.log }
        ensures fits { OnOk result (IsTooLongFor self.old.log ask.now tuple.now → ⊥) }
        ensures untouched { IsErrOf result ServeNo.Full
            → log_journal self.new.log ≡ log_journal self.old.log }
        ensures cause { Costs (log_journal self.old.log) (log_journal self.new.log)
            (IsErrOf result ServeNo.Down) }
        ensures counts_once { CostsOnce (log_journal self.old.log) (log_journal self.new.log)
            (IsErrOf result ServeNo.Down) }
    {
        self.write(ask, tuple)?;
        self.replica.append(rt, desk, seer)?;
        Ok(())
    }
}
