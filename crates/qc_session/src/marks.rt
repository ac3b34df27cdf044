//! How a client marks sessions, and looks whether a transaction is marked.
ghost use Rattle.std.specs.Prelude.{◌≡◌, ◌<◌, ◌∷◌, [], OnOk, IfErr};
ghost use Rattle.qc_carry.specs.Walk.{Walk};
ghost use Rattle.qc_event.specs.declared.event.Event.TheVariants as event;
ghost use Rattle.qc_event.specs.Standing.{IsUser, Started};
ghost use Rattle.qc_event.specs.Tables.{setting_of};
ghost use Rattle.qc_event.specs.Users as users;
ghost use Rattle.qc_managers.specs.Carrying.{entry};
ghost use Rattle.qc_net.specs.Courier.{link_of};
ghost use Rattle.qc_history.specs.Looking.{is_marked_for};
ghost use Rattle.qc_session.specs.Acting.{IsWanting};
ghost use Rattle.qc_session.specs.Lines.{HasGoneOn};

use qc_carry::Line;
use qc_disk::Disk;
use qc_event::{Name, Short};
use qc_net::Link;
use qc_system::Mounting;
use std::sync::Wait;

/// The number of a name's top.
pub(crate) fn number_of_top(of: &Name) -> u64
    ensures { result ≡ users.top_number of.now }
{
    match of.number(0) {
        Some(number) => number,
        None => 0,
    }
}

/// Marks a session, for a user transaction, in the history.
pub(crate) fn mark<R: Wait, D: Disk + Drop, L: Link + Drop, N: Mounting>(
    line: &mut Line<'_, R, D, L, N>,
    by: &Name,
    session: u8,
) -> Result<(), Short>
    requires user { Started line.old.pass.seen by.now (λ b. IsUser b.kind) }
    requires low { session < 16 }
    ensures ok { OnOk result (Walk line.old.pass line.new.pass
        (entry line.old.pass.number (event.Mark by.now session) ∷ [])) }
    ensures err { IfErr result (IsWanting line.old.pass line.new.pass) }
    ensures went { HasGoneOn (setting_of N.table N.base) line.old.pass line.new.pass
        (L.view (link_of line.old.courier)).plan (L.view (link_of line.new.courier)).plan
        line.old.patience line.new.patience line.old.system line.new.system }
{
    let marked = line.mark(by, session);
    marked?;
    Ok(())
}

/// Looks whether a mark stands in the history that lets a user transaction be killed.
pub(crate) fn marked<R: Wait, D: Disk + Drop, L: Link + Drop, N: Mounting>(
    line: &mut Line<'_, R, D, L, N>,
    of: &Name,
) -> bool
    ensures walk { Walk line.old.pass line.new.pass [] }
    ensures marked { result ≡ is_marked_for line.new.pass.seen of.now }
    ensures went { HasGoneOn (setting_of N.table N.base) line.old.pass line.new.pass
        (L.view (link_of line.old.courier)).plan (L.view (link_of line.new.courier)).plan
        line.old.patience line.new.patience line.old.system line.new.system }
{
    line.marked(of)
}
