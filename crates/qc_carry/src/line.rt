//! A client's way to a system, as a carrier.
ghost use Rattle.std.specs.Prelude.{◌≡◌, [], false, All, IfSome};
ghost use Rattle.qc_event.specs.Tables.{setting_of};
ghost use Rattle.qc_net.specs.Courier.{link_of, held_of};
ghost use Rattle.qc_net.specs.Plan.{anew};
ghost use Rattle.qc_desk.specs.Consulting.{HasAsked};
ghost use Rattle.qc_desk.specs.Known.{IsKnown};
ghost use Rattle.qc_desk.specs.Rules.{IsClient};
ghost use Rattle.qc_carry.specs.Kept.{Keeps};

use crate::begin::NextAccess;
use crate::carry::{access, is_cut_off};
use qc_desk::Pass;
use qc_disk::Disk;
use qc_event::{Name, Op, Short};
use qc_managers::{Carried, Carrier, CarryNo};
use qc_net::{Courier, Link};
use qc_system::{Boxed, Mounting, System};
use std::sync::Wait;

/// A client's way to a system: its pass, and the courier that takes its requests to the copies and loses, delays and
/// repeats them. What it has seen is legal, each request that its courier holds was made, and where its link tells its
/// plan the client's requests meet the fates of it. Other clients may enter meanwhile.
#[derive(Drop)]
pub struct Line<'a, R, D: Disk + Drop, L: Link + Drop, N: Mounting>
where
    Boxed<D>: Disk,
{
    pub rt: &'a R,
    pub system: &'a System<D, N>,
    pub pass: Pass<N>,
    pub courier: Courier<L>,
    /// For how many due steps the sender of a held request waits.
    pub patience: u32,
    /// An access was cut off, so what was sent and the history may part: nothing more is carried.
    pub torn: bool,
    ghost client: { IsClient pass },
    ghost known: { ∥ IsKnown (setting_of N.table N.base) pass ∥₁ },
    ghost held: { All (HasAsked pass.seen) (held_of courier) },
    ghost keeps: { Keeps pass.number (L.view (link_of courier)).plan (held_of courier) patience
        pass.seen torn },
}

impl<'a, R: Wait, D: Disk + Drop, L: Link + Drop, N: Mounting> Line<'a, R, D, L, N> {
    /// A line of a client's pass that has entered nothing, and of a courier that holds nothing and whose link is at its
    /// start. It takes no memory.
    pub fn new(
        rt: &'a R,
        system: &'a System<D, N>,
        pass: Pass<N>,
        courier: Courier<L>,
        patience: u32,
    ) -> Self
        requires client { IsClient pass }
        requires fresh { pass.mine ≡ [] }
        requires none { held_of courier ≡ [] }
        requires start { IfSome (L.view (link_of courier)).plan (λ plan. plan ≡ anew plan) }
        ensures system { result.system.now ≡ system.now }
        ensures pass { result.pass ≡ pass }
        ensures courier { result.courier ≡ courier }
        ensures patience { result.patience ≡ patience }
        ensures torn { result.torn ≡ false }
    {
        pass.known();
        Line {
            rt,
            system,
            pass,
            courier,
            patience,
            torn: false,
        }
    }
}

impl<'a, R: Wait, D: Disk + Drop, L: Link + Drop, N: Mounting> Carrier for Line<'a, R, D, L, N> {
    ghost use Rattle.std.proofs.Common.{refl, ◌∙◌};
    ghost use Rattle.std.specs.Prelude.{◌≡◌, ◌==◌, not};
    ghost use Rattle.qc_event.specs.Tables.{setting_of};
    ghost use Rattle.qc_desk.proofs.Known.{known_again};
    ghost use Rattle.qc_net.specs.Courier.{link_of};
    ghost use Rattle.qc_carry.specs.Carried.{HasCarried, carried_itself, carried_by_both};

    ghost view = { λ line. record {
      setting = setting_of N.table N.base;
      seat = line.pass.number;
      seen = line.pass.seen;
      others = λ e. not (e.seat == line.pass.number);
      troubles = (L.view (link_of line.courier)).troubles;
    } };

    ghost became = { λ before now. HasCarried before.pass now.pass
        (L.view (link_of before.courier)).plan (L.view (link_of now.courier)).plan
        before.patience now.patience × (now.system ≡ before.system) };

    ghost became_itself = { λ line. (
      carried_itself line.pass (L.view (link_of line.courier)).plan
          line.patience,
      refl,
    ) };

    ghost became_by_both = { λ a b c first next. (
      carried_by_both a.pass b.pass c.pass
          (L.view (link_of a.courier)).plan (L.view (link_of b.courier)).plan
          (L.view (link_of c.courier)).plan a.patience b.patience c.patience first.0 next.0,
      next.1 ∙ first.1,
    ) };

    ghost is_legal = { λ line. (known_again (setting_of N.table N.base) line.pass line.known).legal };

    fn carry(&mut self, manager: &Name, copy: u8, rec: u8, op: Op) -> Result<Carried, CarryNo> {
        if self.torn {
            return Err(CarryNo::Short(Short::Memory));
        }
        let next = NextAccess {
            manager: *manager,
            copy,
            rec,
            op,
        };
        let carried = access(
            self.rt,
            self.system,
            &mut self.pass,
            &mut self.courier,
            self.patience,
            &next,
        );
        self.torn = is_cut_off(&carried);
        carried
    }
}
