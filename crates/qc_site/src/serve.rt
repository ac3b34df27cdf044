//! How a site serves a request.
ghost use Rattle.std.specs.Prelude.{◌≡◌, ◌⊎◌, ◌∷◌, ◌↔◌, true, IfOk, IfErr, OnOk, OnErr, IsErrOf, Err, None, Ok, Some, is_some};
ghost use Rattle.qc_config.specs.declared.tuple.Tuple.{Tuple};
ghost use Rattle.qc_event.specs.Grants.{grant_with};
ghost use Rattle.qc_event.specs.declared.event.Answered.TheVariants.{Down, Full, Granted, Strange};
ghost use Rattle.qc_event.specs.Base.{IsProper};
ghost use Rattle.qc_event.specs.History.{grants};
ghost use Rattle.qc_event.specs.Requests.{is_fault};
ghost use Rattle.qc_event.specs.Tables.{setting_of};
ghost use Rattle.qc_event.specs.Wants.{IsWant};
ghost use Rattle.qc_desk.specs.Calling.{SeesMore};
ghost use Rattle.qc_ledger.specs.Runs.{Costs, CostsOnce};
ghost use Rattle.qc_desk.specs.Consulting.{HasAsked};
ghost use Rattle.qc_desk.specs.Answers.{IsGranted};
ghost use Rattle.qc_site.specs.AtDesk.{unable_entry, LeavesKnown};
ghost use Rattle.qc_site.specs.Log.{log_journal};
ghost use Rattle.qc_site.specs.Serving as words;
ghost use Rattle.qc_site.specs.declared.serve.ServeNo.TheVariants as no;

use crate::fault::SiteNo;
use crate::site::Site;
use qc_config::Tuple;
use qc_desk::{Consulted, Desk, Pass, Store};
use qc_disk::Disk;
use qc_event::{Answered, Ask, Short, Why};
use qc_moss::Verdict;
use std::sync::Wait;

/// Why the desk did not answer a request: the copy was unable to serve it, or memory or room was wanting.
pub(crate) enum ServeNo {
    /// It is down.
    Down,
    /// Its journal is full.
    Full,
    /// It is strange.
    Strange,
    /// Memory or room was wanting.
    Short(Short),
}

impl From<Short> for ServeNo {
    ghost from_gives = { λ short e. e ≡ no.Short short };

    fn from(short: Short) -> Self {
        ServeNo::Short(short)
    }
}

// What a refused revival is to a request.
fn of_site(no: SiteNo) -> ServeNo
    ensures { result ≡ words.of_site no }
{
    match no {
        SiteNo::Disk => ServeNo::Down,
        SiteNo::Strange => ServeNo::Strange,
        SiteNo::Image(_) => ServeNo::Short(Short::Memory),
        SiteNo::Short(short) => ServeNo::Short(short),
    }
}

impl<D: Disk, N: Store, const C: u8> Site<D, N, C> {
    ghost use Rattle.qc_site.specs.Calls.{site_state, SiteBecame, CanServe, FitsOrRepeats, HasEnded, HasServed, IsUnwrittenNo, ReviveSays, ServeSays, SiteWroteNone};
    ghost use Rattle.qc_site.specs.Sites.{Differs, EntersHand, IsByLocks, IsFullFor, IsLeftBy, IsStrangeFor, IsUnwritten, WritesNone};

    /// Is up, with nothing in hand.
    pub(crate) fn rise<R: Wait>(&mut self, rt: &R, desk: &Desk<N>) -> Result<(), SiteNo>
        requires proper { IsProper (setting_of N.table N.base) }
        ensures ready { OnOk result (CanServe self.new.replica) }
        ensures refused { IfErr result (ReviveSays (site_state self.new)) }
        ensures enters { EntersHand C self.old.replica self.new.replica }
        ensures hand { (self.new.replica.hand ≡ None)
            ⊎ (self.new.replica.hand ≡ self.old.replica.hand) }
        ensures idle { CanServe self.old.replica → (OnErr result ⊥)
            × (self.new.log ≡ self.old.log) × (self.new.replica ≡ self.old.replica) }
        ensures became { SiteBecame (setting_of N.table N.base) C None (site_state self.old)
            (site_state self.new) }
        ensures wrote_none { SiteWroteNone (setting_of N.table N.base) C (site_state self.old)
            (site_state self.new) }
        ensures strange { (result ≡ Err SiteNo.Strange) ↔ (is_some self.new.strange ≡ true) }
        ensures for_good { is_some self.old.strange ≡ true
            → (result ≡ Err SiteNo.Strange) × (self.new.strange ≡ self.old.strange) }
        ensures differs { IsStrangeFor (Differs self.old.log
            (grants self.old.replica.pass.seen C) self.old.replica.hand)
            self.old.strange self.new.strange }
        ensures cause { Costs (log_journal self.old.log) (log_journal self.new.log)
            (IsErrOf result SiteNo.Disk) }
        ensures counts_once { CostsOnce (log_journal self.old.log) (log_journal self.new.log)
            (IsErrOf result SiteNo.Disk) }
    {
        if self.replica.is_up() {
            self.enter_hand(rt, desk)
        } else {
            self.revive(rt, desk)
        }
    }

    // Asks the desk: a repeat gets what it was granted, and what is free is granted.
    fn grant<R: Wait>(
        &mut self,
        rt: &R,
        desk: &Desk<N>,
        seer: &mut Pass<N>,
        ask: &Ask,
    ) -> Result<Answered, ServeNo>
        requires proper { IsProper (setting_of N.table N.base) }
        requires ready { CanServe self.old.replica }
        requires copy { ask.now.copy ≡ C }
        requires asked { HasAsked seer.old.seen ask.now }
        ensures served { IfOk result
            (HasServed C ask.now seer.new (site_state self.old) (site_state self.new)) }
        ensures by_locks { IfOk result IsByLocks }
        ensures refused { IfErr result (ServeSays (site_state self.new)) }
        ensures err { OnErr result (self.new.replica.pass.mine ≡ self.old.replica.pass.mine) }
        ensures hand { IsLeftBy ask.now None self.new.replica.hand }
        ensures within { (tuple : Tuple) → result ≡ Ok (Granted tuple)
            → (self.new.replica.pass.mine ≡ self.old.replica.pass.mine)
            ⊎ HasEnded ask.now (site_state self.new) tuple }
        ensures again { (tuple : Tuple)
            → IsGranted C self.old.replica.pass.seen (grant_with ask.now tuple)
            → (result ≡ Ok (Granted tuple)) × (self.new.log ≡ self.old.log)
            × (self.new.replica.pass.mine ≡ self.old.replica.pass.mine) }
        ensures became { SiteBecame (setting_of N.table N.base) C (Some ask.now)
            (site_state self.old) (site_state self.new) }
        ensures strange { self.new.strange ≡ self.old.strange }
        ensures seer { SeesMore seer.old seer.new }
        ensures known { OnOk result
            (LeavesKnown (setting_of N.table N.base) C self.new.replica.pass seer.new) }
        ensures full { IsErrOf result ServeNo.Full → IsFullFor (setting_of N.table N.base) C ask.now
            self.new.replica.pass.seen self.new.log }
        ensures fits { (tuple : Tuple) → result ≡ Ok (Granted tuple)
            → FitsOrRepeats ask.now (site_state self.old) (site_state self.new) tuple }
        ensures untouched { IsErrOf result ServeNo.Full
            → log_journal self.new.log ≡ log_journal self.old.log }
        ensures unwritten { IfOk result (λ said. IsUnwritten said
            → log_journal self.new.log ≡ log_journal self.old.log) }
        ensures cause { Costs (log_journal self.old.log) (log_journal self.new.log)
            (IsErrOf result ServeNo.Down) }
        ensures counts_once { CostsOnce (log_journal self.old.log) (log_journal self.new.log)
            (IsErrOf result ServeNo.Down) }
    {
        let told = self.replica.consult(rt, desk, seer, ask)?;
        let verdict = match &told {
            Consulted::Again(tuple) => return Ok(Answered::Granted(*tuple)),
            Consulted::Fresh(verdict) => verdict,
        };
        match verdict {
            Verdict::Free(tuple) => {
                self.admit(rt, desk, seer, ask, tuple)?;
                Ok(Answered::Granted(*tuple))
            }
            Verdict::Blocked(holder) => Ok(Answered::Blocked(*holder)),
            Verdict::Dead(ancestor) => Ok(Answered::Dead(*ancestor)),
        }
    }

    // Serves a request, and enters nothing where the copy is unable.
    fn try_serve<R: Wait>(
        &mut self,
        rt: &R,
        desk: &Desk<N>,
        seer: &mut Pass<N>,
        ask: &Ask,
    ) -> Result<Answered, ServeNo>
        requires proper { IsProper (setting_of N.table N.base) }
        requires copy { ask.now.copy ≡ C }
        requires asked { HasAsked seer.old.seen ask.now }
        ensures served { IfOk result
            (HasServed C ask.now seer.new (site_state self.old) (site_state self.new)) }
        ensures by_locks { IfOk result IsByLocks }
        ensures refused { IfErr result (ServeSays (site_state self.new)) }
        ensures err { OnErr result (EntersHand C self.old.replica self.new.replica) }
        ensures hand { IsLeftBy ask.now self.old.replica.hand self.new.replica.hand }
        ensures within { (tuple : Tuple) → result ≡ Ok (Granted tuple)
            → (EntersHand C self.old.replica self.new.replica)
            ⊎ HasEnded ask.now (site_state self.new) tuple }
        ensures wrote_none { IfOk result (λ said. IsUnwritten said
            → SiteWroteNone (setting_of N.table N.base) C (site_state self.old)
            (site_state self.new)) }
        ensures stays { IfErr result (λ refusal. IsUnwrittenNo refusal
            → SiteWroteNone (setting_of N.table N.base) C (site_state self.old)
            (site_state self.new)) }
        ensures strange { (result ≡ Err ServeNo.Strange) ↔ (is_some self.new.strange ≡ true) }
        ensures again { (tuple : Tuple) → CanServe self.old.replica
            → IsGranted C self.old.replica.pass.seen (grant_with ask.now tuple)
            → (result ≡ Ok (Granted tuple)) × (self.new.log ≡ self.old.log)
            × (self.new.replica.pass.mine ≡ self.old.replica.pass.mine) }
        ensures became { SiteBecame (setting_of N.table N.base) C (Some ask.now)
            (site_state self.old) (site_state self.new) }
        ensures seer { SeesMore seer.old seer.new }
        ensures asked { HasAsked seer.new.seen ask.now }
        ensures known { OnOk result
            (LeavesKnown (setting_of N.table N.base) C self.new.replica.pass seer.new) }
        ensures for_good { is_some self.old.strange ≡ true
            → (result ≡ Err ServeNo.Strange) × (self.new.strange ≡ self.old.strange) }
        ensures differs { IsStrangeFor (Differs self.old.log
            (grants self.old.replica.pass.seen C) self.old.replica.hand)
            self.old.strange self.new.strange }
        ensures full { IsErrOf result ServeNo.Full → IsFullFor (setting_of N.table N.base) C ask.now
            self.new.replica.pass.seen self.new.log }
        ensures fits { (tuple : Tuple) → CanServe self.old.replica → result ≡ Ok (Granted tuple)
            → FitsOrRepeats ask.now (site_state self.old) (site_state self.new) tuple }
        ensures untouched { CanServe self.old.replica → IsErrOf result ServeNo.Full
            → log_journal self.new.log ≡ log_journal self.old.log }
        ensures unwritten { CanServe self.old.replica → IfOk result (λ said. IsUnwritten said
            → log_journal self.new.log ≡ log_journal self.old.log) }
        ensures cause { Costs (log_journal self.old.log) (log_journal self.new.log)
            (IsErrOf result ServeNo.Down) }
        ensures counts_once { CostsOnce (log_journal self.old.log) (log_journal self.new.log)
            (IsErrOf result ServeNo.Down) }
    {
        match self.rise(rt, desk) {
            Ok(()) => {}
            Err(no) => return Err(of_site(no)),
        }
        self.grant(rt, desk, seer, ask)
    }

    // Enters that the copy was unable to serve the request.
    fn unable<R: Wait>(
        &mut self,
        rt: &R,
        desk: &Desk<N>,
        seer: &mut Pass<N>,
        ask: &Ask,
        why: Why,
    ) -> Result<(), Short>
        requires copy { ask.now.copy ≡ C }
        requires asked { HasAsked seer.old.seen ask.now }
        requires fault { is_fault why ≡ true }
        ensures enters { OnOk result (self.new.replica.pass.mine
            ≡ unable_entry C ask.now why ∷ self.old.replica.pass.mine) }
        ensures refused { IfErr result (IsWant self.new.replica.pass.seen) }
        ensures err { OnErr result (self.new.replica.pass.mine ≡ self.old.replica.pass.mine) }
        ensures still { (self.new.log ≡ self.old.log) × (self.new.strange ≡ self.old.strange)
            × (self.new.replica.hand ≡ self.old.replica.hand)
            × (self.new.replica.up ≡ self.old.replica.up) }
        ensures grants { grants self.new.replica.pass.seen C ≡ grants self.old.replica.pass.seen C }
        ensures became { SiteBecame (setting_of N.table N.base) C None (site_state self.old)
            (site_state self.new) }
        ensures seer { SeesMore seer.old seer.new }
        ensures same { seer.new.seen ≡ self.new.replica.pass.seen }
        ensures known { LeavesKnown (setting_of N.table N.base) C self.new.replica.pass seer.new }
    {
        self.replica.unable(rt, desk, seer, ask, why)
    }

    /// Serves a request that the seer saw. A grant whose record stands and that is not yet entered comes first; a copy
    /// that is down revives. Then the desk is asked. A repeat of a granted access gets the same tuple, and nothing is
    /// written; what is free is journalled, entered and answered, in this order. That
    /// the copy is down, full or strange is entered before it is answered.
    pub fn serve<R: Wait>(
        &mut self,
        rt: &R,
        desk: &Desk<N>,
        seer: &mut Pass<N>,
        ask: &Ask,
    ) -> Result<Answered, Short>
        requires proper { IsProper (setting_of N.table N.base) }
        requires copy { ask.now.copy ≡ C }
        requires asked { HasAsked seer.old.seen ask.now }

        // What was entered is at most the grant in hand, and then the answer's entry; a repeat enters nothing, and calls no
        // disk where the copy can serve.
        ensures served { IfOk result
            (HasServed C ask.now seer.new (site_state self.old) (site_state self.new)) }
        ensures refused { IfErr result (IsWant self.new.replica.pass.seen) }
        ensures err { OnErr result (EntersHand C self.old.replica self.new.replica) }
        ensures hand { IsLeftBy ask.now self.old.replica.hand self.new.replica.hand }
        ensures again { (tuple : Tuple) → CanServe self.old.replica
            → IsGranted C self.old.replica.pass.seen (grant_with ask.now tuple)
            → (result ≡ Ok (Granted tuple)) × (self.new.log ≡ self.old.log)
            × (self.new.replica.pass.mine ≡ self.old.replica.pass.mine) }
        ensures became { SiteBecame (setting_of N.table N.base) C (Some ask.now)
            (site_state self.old) (site_state self.new) }
        ensures seer { SeesMore seer.old seer.new }
        ensures known { OnOk result
            (LeavesKnown (setting_of N.table N.base) C self.new.replica.pass seer.new) }

        // Full is answered of a request that was found free, whose record would pass the limit. What is granted anew does not
        // pass it. A refusal by the locks or for want of room writes nothing, and leaves the journal of a copy that could serve
        // as it was; nor does a strange copy write.
        ensures full { result ≡ Ok Full → IsFullFor (setting_of N.table N.base) C ask.now
            self.new.replica.pass.seen self.new.log }
        ensures fits { (tuple : Tuple) → CanServe self.old.replica → result ≡ Ok (Granted tuple)
            → FitsOrRepeats ask.now (site_state self.old) (site_state self.new) tuple }
        ensures within { (tuple : Tuple) → result ≡ Ok (Granted tuple)
            → (EntersHand C self.old.replica self.new.replica)
            ⊎ HasEnded ask.now (site_state self.new) tuple }
        ensures unwritten { CanServe self.old.replica → IfOk result (λ said. IsUnwritten said
            → log_journal self.new.log ≡ log_journal self.old.log) }
        ensures wrote_none { IfOk result (λ said. WritesNone said
            → SiteWroteNone (setting_of N.table N.base) C (site_state self.old)
            (site_state self.new)) }

        // A strange copy stays so, and answers nothing else; one turns strange for what its disk has in place of what it
        // granted.
        ensures strange { IfOk result (λ said.
            (said ≡ Strange) ↔ (is_some self.new.strange ≡ true)) }
        ensures for_good { is_some self.old.strange ≡ true → (IfOk result (λ said. said ≡ Strange))
            × (self.new.strange ≡ self.old.strange) }
        ensures differs { IsStrangeFor (Differs self.old.log
            (grants self.old.replica.pass.seen C) self.old.replica.hand)
            self.old.strange self.new.strange }

        // Down is answered only where the disk's count of faults rose, and another answer only where it did not. It rises by
        // one at most.
        ensures cause { Costs (log_journal self.old.log) (log_journal self.new.log)
            (result ≡ Ok Down) }
        ensures counts_once { CostsOnce (log_journal self.old.log) (log_journal self.new.log)
            (OnOk result (result ≡ Ok Down)) }
    {
        match self.try_serve(rt, desk, seer, ask) {
            Ok(answered) => Ok(answered),
            Err(ServeNo::Down) => {
                self.unable(rt, desk, seer, ask, Why::Down)?;
                Ok(Answered::Down)
            }
            Err(ServeNo::Full) => {
                self.unable(rt, desk, seer, ask, Why::Full)?;
                Ok(Answered::Full)
            }
            Err(ServeNo::Strange) => {
                self.unable(rt, desk, seer, ask, Why::Strange)?;
                Ok(Answered::Strange)
            }
            Err(ServeNo::Short(short)) => Err(short),
        }
    }
}
