//! The sessions of a script, run over a system from its opening to its end.
ghost use Rattle.std.specs.Prelude.{◌≡◌, ◌≤◌, [], false, length, reverse, OnOk, IsOk, IsErrOf, Err};
ghost use Rattle.qc_event.specs.declared.short.Short.TheVariants.{Memory, Room};
ghost use Rattle.qc_event.specs.History.{limit};
ghost use Rattle.qc_event.specs.Legal.{Legal};
ghost use Rattle.qc_event.specs.Tables.{setting_of};
ghost use Rattle.qc_interp.specs.FollowsScript.{BeginsScript, FollowsScript};
ghost use Rattle.qc_script.specs.Reading.{IsProper};
ghost use Rattle.qc_script.specs.Steps.{plan_of_script};
ghost use Rattle.qc_system.specs.Closing.{AllKeep};
ghost use Rattle.qc_system.specs.Parts.{AreBeside, IsOpening};

use crate::stage::run_over;
use qc_board::Board;
use qc_desk::Pass;
use qc_disk::Disk;
use qc_event::{Base, Short};
use qc_gate::Gate;
use qc_interp::Mode;
use qc_script::Script;
use qc_system::{Mounting, Others, System};
use qc_trail::Trail;
use std::alloc::{AllocError, Global};
use std::marker::Brand;
use std::sync::Wait;
use std::thread::Threads;

// How many sessions may be marked, and that each of them may.
const SESSIONS: u8 = 16;

const EACH: u16 = 0xffff;

/// What is left of a store once its sessions have run: whether all came to their end, the tuples from which the copies
/// started, the history, the oldest entry first, and the disks, the ledger's first, and behind them their spares.
#[derive(Drop)]
pub struct Ended<D> {
    pub ran: Result<(), Short>,
    pub start: Base,
    pub trail: Trail,
    pub disks: Vec<D>,
}

// What is told of sessions that ran: where memory was wanting for a fold, this.
fn told_of(ran: Result<(), Short>, wanting: bool) -> Result<(), Short>
    ensures same { wanting ≡ false → result ≡ ran }
    ensures ok { IsOk result → wanting ≡ false }
    ensures room { IsErrOf result Room → IsErrOf ran Room }
{
    match ran {
        Ok(()) if wanting => Err(Short::Memory),
        ran => ran,
    }
}

// Takes apart a system over which no session began, for want of memory.
fn none_ran<R: Wait, D: Disk + Drop, N: Mounting>(
    rt: &R,
    system: System<D, N>,
    others: Others<D>,
    first: Pass<N>,
) -> Ended<D>
    requires first { IsOpening first 17 }
    requires others { AreBeside (length N.base) N.found others }
    ensures ran { result.ran ≡ Err Memory }
    ensures start { result.start ≡ N.base }
    ensures nothing { result.trail ≡ [] }
    ensures disks { AllKeep (setting_of N.table N.base) N.found D.view (IsOk result.ran)
        result.disks.items [] }
{
    let (start, trail, disks, _) = system.finish(rt, first, others);
    Ended {
        ran: Err(Short::Memory),
        start,
        trail,
        disks,
    }
}

/// Runs the sessions of a script over a system that was just opened, in threads or in order, and takes that apart, with what
/// stands beside it. Each, and each branch, passes the gate before each begin, step and end. Where memory or room is
/// wanting, a session stops, and what it made before stands; the others go on. Where memory is wanting for the board, none
/// begins; where it is for a fold of disks at the end, none came to its end by what is told.
pub fn run_sessions<
    R: Threads + Wait + Sync,
    D: Disk + Drop + Send,
    N: Mounting + Send + Sync,
    G: Gate + Sync,
>(
    rt: &R,
    alloc: Global,
    system: System<D, N>,
    others: Others<D>,
    first: Pass<N>,
    script: &Script,
    gate: &G,
    mode: Mode,
) -> Ended<D>
    requires first { IsOpening first 17 }
    requires others { AreBeside (length N.base) N.found others }
    requires proper { IsProper (plan_of_script script.now) }
    requires table { script.now.table ≡ N.table }
    requires copies { length N.base ≡ script.now.table.copies }
    ensures start { result.start ≡ N.base }
    ensures legal { Legal (setting_of N.table N.base) (reverse result.trail) }
    ensures bounded { length result.trail ≤ limit }

    // What ran to its end follows the script, and what was cut off is a beginning of it.
    ensures follows { OnOk result.ran (FollowsScript system.desk.epoch script.now.patience
        (plan_of_script script.now).sessions (reverse result.trail)) }
    ensures begins { BeginsScript system.desk.epoch script.now.patience
        (plan_of_script script.now).sessions (reverse result.trail) }
    ensures room { IsErrOf result.ran Room → length result.trail ≡ limit }

    // Each active disk keeps what was found on it, and then what the history tells. Where all came to their end, each pair
    // was folded that nothing barred.
    ensures disks { AllKeep (setting_of N.table N.base) N.found D.view (IsOk result.ran)
        result.disks.items (reverse result.trail) }
{
    let (board, seat) = match Board::new(alloc, SESSIONS, EACH) {
        Ok(made) => made,
        Err(AllocError) => return none_ran(rt, system, others, first),
    };
    let (ran, first) = run_over::<R, D, N, G, Brand>(
        rt, alloc, &system, &board, script, gate, mode, first, seat,
    );
    let (start, trail, disks, wanting) = system.finish(rt, first, others);
    Ended {
        ran: told_of(ran, wanting),
        start,
        trail,
        disks,
    }
}
