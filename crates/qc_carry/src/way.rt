//! The way of a pass to the copies of a system.
ghost use Rattle.std.specs.Prelude.{◌≡◌, ◌≤◌, [], true, All, IfErr, IfOk, IfSome, IsErrOf, None, length, option_map};
ghost use Rattle.qc_event.specs.Counts.{Rose};
ghost use Rattle.qc_event.specs.declared.event.Ask.{Ask};
ghost use Rattle.qc_event.specs.declared.short.Short.TheVariants.{Room};
ghost use Rattle.qc_event.specs.History.{limit};
ghost use Rattle.qc_event.specs.Tables.{setting_of};
ghost use Rattle.qc_net.specs.Courier.{link_of, held_of, IsAnswered, SentHasCause};
ghost use Rattle.qc_net.specs.Plan.{anew};
ghost use Rattle.qc_net.specs.Sending.{IsSending, sending};
ghost use Rattle.qc_desk.specs.Consulting.{HasAsked};
ghost use Rattle.qc_desk.specs.Known.{IsKnown};
ghost use Rattle.qc_desk.specs.Rules.{IsClient};
ghost use Rattle.qc_desk.specs.Answers.{HasAnswered};
ghost use Rattle.qc_carry.specs.Access.{IsShort};
ghost use Rattle.qc_carry.specs.Walk.{Walk};

use qc_desk::Pass;
use qc_disk::Disk;
use qc_event::{Answered, Ask, Short};
use qc_managers::CarryNo;
use qc_net::{Courier, Link, Port, Sent};
use qc_system::{Boxed, Mounting, System};
use std::mem::replace;
use std::sync::Wait;

// A pass that asks the copies of a system.
#[derive(Drop)]
struct Way<'a, R, D: Disk + Drop, N: Mounting>
where
    Boxed<D>: Disk,
{
    rt: &'a R,
    system: &'a System<D, N>,
    pass: Pass<N>,
    /// The last request found the history full.
    full: bool,
    ghost found: { full ≡ true → length pass.seen ≡ limit },
    ghost known: { ∥ IsKnown (setting_of N.table N.base) pass ∥₁ },
}

// Whether a request was not served since the history is full.
fn is_full(served: &Result<Answered, Short>) -> bool
    ensures room { result ≡ true → IsErrOf served.now Room }
    ensures full { IsErrOf served.now Room → result ≡ true }
{
    match served {
        Err(Short::Room) => true,
        Ok(_) | Err(Short::Memory) => false,
    }
}

impl<'a, R: Wait, D: Disk + Drop, N: Mounting> Port for Way<'a, R, D, N> {
    ghost use Rattle.std.specs.Prelude.{◌≡◌, true, None};
    ghost use Rattle.qc_desk.specs.Calling.{SeesMore};
    ghost use Rattle.qc_desk.specs.Consulting.{HasAsked};
    ghost use Rattle.qc_desk.specs.Answers.{HasAnswered};
    ghost use Rattle.qc_ledger.proofs.Passes.{sees_on};
    ghost use Rattle.qc_carry.specs.Seeing.{sees_itself};

    ghost view = { λ way. record {
      may = λ ask. HasAsked way.pass.seen ask;
      gave = λ ask answer. HasAnswered ask.copy way.pass.seen ask answer;
      made = None;
      full = way.full ≡ true;
    } };

    ghost became = { λ before now. SeesMore before.pass now.pass };

    ghost became_itself = { λ way. sees_itself way.pass };

    ghost became_by_both = { λ a b c first second. sees_on a.pass b.pass c.pass first second };

    fn deliver(&mut self, ask: &Ask) -> Result<Answered, Short> {
        let served = self.system.serve(self.rt, &mut self.pass, ask);
        self.full = is_full(&served);
        served
    }
}

/// Sends a request over a courier. The pass has then seen what the answer rests on, and all that others entered.
pub(crate) fn send<R: Wait, D: Disk + Drop, L: Link, N: Mounting>(
    rt: &R,
    system: &System<D, N>,
    pass: &mut Pass<N>,
    courier: &mut Courier<L>,
    ask: &Ask,
    patience: u32,
) -> Result<Sent, CarryNo>
    requires client { IsClient pass.old }
    requires asked { HasAsked pass.old.seen ask.now }
    requires held { All (HasAsked pass.old.seen) (held_of courier.old) }
    requires known { IsKnown (setting_of N.table N.base) pass.old }
    ensures walk { Walk pass.old pass.new [] }
    ensures known { IsKnown (setting_of N.table N.base) pass.new }
    ensures held { All (HasAsked pass.new.seen) (held_of courier.new) }
    ensures err { IfErr result (IsShort pass.old pass.new) }
    ensures answered { IfOk result (IsAnswered
        (λ (a : Ask). HasAnswered a.copy pass.new.seen a) ask.now) }
    ensures told { IfSome (L.view (link_of courier.old)).plan (λ plan. IfOk result (IsSending
        (sending plan (held_of courier.old) ask.now patience) (L.view (link_of courier.new)).plan
        (held_of courier.new) (λ (a : Ask). HasAnswered a.copy pass.new.seen a) None None)) }
    ensures cause { IfOk result (SentHasCause
        (Rose (L.view (link_of courier.old)).troubles (L.view (link_of courier.new)).troubles)) }
    ensures later { (L.view (link_of courier.old)).troubles
        ≤ (L.view (link_of courier.new)).troubles }
    ensures plan { option_map anew (L.view (link_of courier.new)).plan ≡ option_map anew
        (L.view (link_of courier.old)).plan }
{
    let note = system.desk().note(pass);
    let mut way = Way {
        rt,
        system,
        pass: replace(pass, note),
        full: false,
    };
    let sent = courier.send(ask, &mut way, patience);
    let Way { pass: own, .. } = way;
    *pass = own;
    Ok(sent?)
}
