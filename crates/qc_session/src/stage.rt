//! The sessions of a script, each run by a client of its own over a system.
ghost use Rattle.std.specs.Prelude.{◌≡◌, ◌+◌, ◌<◌, ◌≤◌, length, map, IfOk};
ghost use Rattle.qc_event.specs.Tables.{setting_of};
ghost use Rattle.qc_desk.specs.Known.{IsKnown};
ghost use Rattle.qc_script.specs.Plan.{SessionsFit};
ghost use Rattle.qc_script.specs.Steps.{plan_of_session};
ghost use Rattle.qc_session.specs.Marking.{IsSeatAt};
ghost use Rattle.qc_session.specs.Session as words;
ghost use Rattle.qc_session.specs.Session.{IsFirst, IsNew, RanEach, RanOne, SessionFits};

use crate::client::Client;
use qc_board::{Board, BoardSeat, Boarded};
use qc_carry::Line;
use qc_desk::Pass;
use qc_disk::Disk;
use qc_event::Short;
use qc_gate::{Gate, Walker};
use qc_interp::{Gated, Host, Mode, run_tops, told_want};
use qc_net::{Courier, Fate, PlanLink};
use qc_script::{Script, Session};
use qc_system::{Boxed, Mounting, System};
use std::alloc::{AllocError, Global};
use std::marker::PhantomData;
use std::sync::Wait;
use std::thread::{Threads, join};

/// What the sessions of a script run over, and whether they do so in threads or in order.
#[derive(Drop)]
pub(crate) struct Stage<'a, R, D: Disk + Drop, N: Mounting, G, B: Boarded>
where
    Boxed<D>: Disk,
{
    pub(crate) rt: &'a R,
    pub(crate) alloc: Global,
    pub(crate) system: &'a System<D, N>,
    pub(crate) board: &'a Board,
    pub(crate) script: &'a Script,
    pub(crate) gate: &'a G,
    pub(crate) mode: Mode,
    pub(crate) at: PhantomData<B>,
    ghost boarded: { board.now.board ≡ B.board },
}

// What is told of two, of which either may be a want.
fn first_want(one: Result<(), Short>, other: Result<(), Short>) -> Result<(), Short>
    ensures { result ≡ words.first_want one other }
{
    match (one, other) {
        (Ok(()), other) => other,
        (Err(one), Ok(())) => Err(one),
        (Err(one), Err(other)) => Err(told_want(one, other)),
    }
}

// The fates of a session's requests.
fn fates_of(session: &Session) -> Result<Vec<Fate>, AllocError>
    ensures { IfOk result (λ v. v.items ≡ session.now.fates.items) }
{
    session.fates.clone()
}

// Runs a session, with this number, by a client of a pass with a seat at a board, and gives the pass back. Where memory
// or room is wanting the session stops, and what it made before stands.
fn run_client<
    R: Threads + Wait + Sync,
    D: Disk + Drop + Send,
    N: Mounting + Send + Sync,
    G: Gate + Sync,
    B: Boarded + Send + Sync,
>(
    rt: &R,
    alloc: Global,
    system: &System<D, N>,
    board: &Board,
    script: &Script,
    gate: &G,
    mode: Mode,
    pass: Pass<N>,
    seat: BoardSeat,
    session: &Session,
    number: u8,
) -> (Result<(), Short>, Pass<N>)
    requires new { IsNew pass }
    requires known { IsKnown (setting_of N.table N.base) pass }
    requires seated { IsSeatAt board.now seat }
    requires boarded { board.now.board ≡ B.board }
    requires low { number < 16 }
    requires fits { SessionFits (setting_of N.table N.base) (plan_of_session session.now) }
    requires table { script.now.table ≡ N.table }
    ensures { RanOne (setting_of N.table N.base) system.now.desk.epoch script.now.patience number
        (plan_of_session session.now) pass result.0 result.1 }
{
    let fates = match fates_of(session) {
        Ok(fates) => fates,
        Err(AllocError) => {
            gate.ends(&Walker::session(number));
            return (Err(Short::Memory), pass);
        }
    };
    let courier = Courier::new(alloc, PlanLink::new(fates, session.hold));
    let line = Line::new(rt, system, pass, courier, script.patience);
    let client = Client::<_, _, _, _, B>::new(line, &script.table, number, board, seat);
    let mut gated = Gated::new(client, gate, number);
    let host = Host { rt, alloc, mode };
    let ran = run_tops(&mut gated, &host, session.tops.as_slice());
    (ran, gated.into_inner().into_pass())
}

impl<
    'a,
    R: Threads + Wait + Sync,
    D: Disk + Drop + Send,
    N: Mounting + Send + Sync,
    G: Gate + Sync,
    B: Boarded + Send + Sync,
> Stage<'a, R, D, N, G, B> {
    // Runs a session and those after it, each by a client of its own.
    #[cycle(sessions)]
    fn run_both(
        &self,
        pass: Pass<N>,
        seat: BoardSeat,
        session: &Session,
        first: Pass<N>,
        first_seat: BoardSeat,
        rest: &[Session],
        number: u8,
    ) -> ((Result<(), Short>, Pass<N>), (Result<(), Short>, Pass<N>))
        requires new { IsNew pass }
        requires known { IsKnown (setting_of N.table N.base) pass }
        requires first { IsFirst first }
        requires seated { IsSeatAt self.now.board.now seat
            × IsSeatAt self.now.board.now first_seat }
        requires fits { SessionFits (setting_of N.table N.base) (plan_of_session session.now) }
        requires all_fit { SessionsFit (setting_of N.table N.base) (map plan_of_session rest.now) }
        requires few { number + 1 + length rest.now ≤ 16 }
        requires table { self.now.script.now.table ≡ N.table }
        ensures one { RanOne (setting_of N.table N.base) self.now.system.now.desk.epoch
            self.now.script.now.patience number (plan_of_session session.now) pass result.0.0
            result.0.1 }
        ensures others { RanEach (setting_of N.table N.base) self.now.system.now.desk.epoch
            self.now.script.now.patience (number + 1) (map plan_of_session rest.now) first
            result.1.0 result.1.1 }
    {
        let (rt, alloc, system, board) = (self.rt, self.alloc, self.system, self.board);
        let (script, gate, mode) = (self.script, self.gate, self.mode);
        if self.mode == Mode::Serial || rest.is_empty() {
            let one = run_client::<_, _, _, _, B>(
                rt, alloc, system, board, script, gate, mode, pass, seat, session, number,
            );
            let others = self.run_from(first, first_seat, rest, number + 1);
            return (one, others);
        }
        join(
            rt,
            || -> (Result<(), Short>, Pass<N>)
                requires { IsNew pass × IsKnown (setting_of N.table N.base) pass
                    × SessionFits (setting_of N.table N.base) (plan_of_session session.now)
                    × (script.now.table ≡ N.table) × IsSeatAt board.now seat
                    × (board.now.board ≡ B.board) × (number < 16) }
                ensures { RanOne (setting_of N.table N.base) system.entry.now.desk.epoch
                    script.entry.now.patience number (plan_of_session session.entry.now) pass
                    result.0 result.1 }
            {
                run_client::<_, _, _, _, B>(
                    rt, alloc, system, board, script, gate, mode, pass, seat, session, number,
                )
            },
            || -> (Result<(), Short>, Pass<N>)
                requires { IsFirst first
                    × SessionsFit (setting_of N.table N.base) (map plan_of_session rest.now)
                    × (number + 1 + length rest.now ≤ 16)
                    × (self.now.script.now.table ≡ N.table)
                    × IsSeatAt self.now.board.now first_seat }
                ensures { RanEach (setting_of N.table N.base) self.entry.now.system.now.desk.epoch
                    self.entry.now.script.now.patience (number + 1)
                    (map plan_of_session rest.entry.now) first result.0 result.1 }
            { self.run_from(first, first_seat, rest, number + 1) },
        )
    }

    /// Runs sessions, numbered from this one on, each by a client of its own, and joins what these saw to the first pass.
    /// One that stops for want of memory or room stops alone. Where several did, want of memory is told before want of room.
    #[cycle(sessions)]
    pub(crate) fn run_from(
        &self,
        first: Pass<N>,
        first_seat: BoardSeat,
        sessions: &[Session],
        number: u8,
    ) -> (Result<(), Short>, Pass<N>)
        requires first { IsFirst first }
        requires seated { IsSeatAt self.now.board.now first_seat }
        requires fit { SessionsFit (setting_of N.table N.base) (map plan_of_session sessions.now) }
        requires few { number + length sessions.now ≤ 16 }
        requires table { self.now.script.now.table ≡ N.table }
        ensures { RanEach (setting_of N.table N.base) self.now.system.now.desk.epoch
            self.now.script.now.patience number (map plan_of_session sessions.now) first
            result.0 result.1 }
    {
        let [session, rest @ ..] = sessions else {
            return (Ok(()), first);
        };
        let (mut first, mut first_seat) = (first, first_seat);
        let pass = self.system.desk().split(self.rt, &mut first);
        let seat = self.board.split(&mut first_seat);
        let ((ran, pass), (others, mut first)) = self.run_both(
            pass, seat, session, first, first_seat, rest, number,
        );
        self.system.desk().join(self.rt, &mut first, pass);
        (first_want(ran, others), first)
    }
}

/// Runs the sessions of a script over a system and a board, which is the one that is named, and joins what they saw to the
/// first pass.
pub(crate) fn run_over<
    R: Threads + Wait + Sync,
    D: Disk + Drop + Send,
    N: Mounting + Send + Sync,
    G: Gate + Sync,
    B: Boarded + Send + Sync,
>(
    rt: &R,
    alloc: Global,
    system: &System<D, N>,
    board: &Board,
    script: &Script,
    gate: &G,
    mode: Mode,
    first: Pass<N>,
    first_seat: BoardSeat,
) -> (Result<(), Short>, Pass<N>)
    requires boarded { board.now.board ≡ B.board }
    requires first { IsFirst first }
    requires seated { IsSeatAt board.now first_seat }
    requires fit { SessionsFit (setting_of N.table N.base)
        (map plan_of_session script.now.sessions.items) }
    requires few { length script.now.sessions.items ≤ 16 }
    requires table { script.now.table ≡ N.table }
    ensures { RanEach (setting_of N.table N.base) system.now.desk.epoch script.now.patience 0
        (map plan_of_session script.now.sessions.items) first result.0 result.1 }
{
    let stage = Stage::<R, D, N, G, B> {
        rt,
        alloc,
        system,
        board,
        script,
        gate,
        mode,
        at: PhantomData,
    };
    let sessions = script.sessions.as_slice();
    if mode == Mode::Threads {
        gate.opens(sessions.len() as u8);
    }
    stage.run_from(first, first_seat, sessions, 0)
}
