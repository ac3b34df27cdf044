//! How a client's line gets a branch, sees the same as another, and takes one in.
ghost use Rattle.std.specs.Prelude.{◌≡◌, ◌<◌, ◌≤◌, [], length, option_map, IfOk, IfErr};
ghost use Rattle.qc_carry.specs.Acting.{KeepsRest};
ghost use Rattle.qc_carry.specs.Branching.{HasTaken, IsBranch};
ghost use Rattle.qc_carry.specs.Walk.{Walk};
ghost use Rattle.qc_event.specs.History.{limit};
ghost use Rattle.qc_net.specs.Courier.{link_of};
ghost use Rattle.qc_net.specs.Plan.{anew};

use crate::line::Line;
use qc_disk::Disk;
use qc_net::Link;
use qc_system::Mounting;
use std::alloc::AllocError;
use std::sync::Wait;

impl<'a, R: Wait, D: Disk + Drop, L: Link + Drop, N: Mounting> Line<'a, R, D, L, N> {
    /// A line with a number of its own that has seen the same, and begins the fates of this one's link anew. Want of memory
    /// leaves all as it was.
    pub fn branch(&mut self) -> Result<Self, AllocError>
        requires high { 17 < self.old.pass.number }
        ensures ok { IfOk result (λ line. IsBranch self.old.pass self.new.pass line.pass) }
        ensures link { IfOk result (λ line. (L.view (link_of line.courier)).plan
            ≡ option_map anew (L.view (link_of self.old.courier)).plan) }
        ensures like { IfOk result (λ line. (line.patience ≡ self.old.patience)
            × (line.system.now ≡ self.old.system.now)) }
        ensures err { IfErr result (λ _. self.new.pass ≡ self.old.pass) }
        ensures rest { KeepsRest self.old self.new }
    {
        let courier = self.courier.fresh()?;
        let pass = self.system.desk().split(self.rt, &mut self.pass);
        Ok(Line::new(self.rt, self.system, pass, courier, self.patience))
    }

    /// Both have then seen the history as it stands at one step. It takes no memory.
    pub fn show(&mut self, other: &mut Self)
        ensures walk { Walk self.old.pass self.new.pass [] × Walk other.old.pass other.new.pass [] }
        ensures same { other.new.pass.seen ≡ self.new.pass.seen }
        ensures rest { KeepsRest self.old self.new }
        ensures other { KeepsRest other.old other.new }
    {
        self.system
            .desk()
            .show(self.rt, &mut self.pass, &mut other.pass);
    }

    /// A line with nothing out is taken in: this one has then seen what both had, and what its courier held is lost. It takes
    /// no memory.
    pub fn take(&mut self, other: Self)
        requires out { other.pass.out ≡ [] }
        ensures taken { HasTaken self.old.pass other.entry.pass self.new.pass }
        ensures bounded { length self.new.pass.seen ≤ limit }
        ensures rest { KeepsRest self.old self.new }
    {
        let Line { pass, .. } = other;
        self.system.desk().join(self.rt, &mut self.pass, pass);
    }
}
