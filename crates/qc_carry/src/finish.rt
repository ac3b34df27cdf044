//! How an access that waits ends, by what came back.
ghost use Rattle.std.specs.Prelude.{◌≡◌, true, IsTrue, not, ◌||◌, is_some, Some};
ghost use Rattle.qc_event.specs.declared.event.Answered.TheVariants as answered;
ghost use Rattle.qc_event.specs.declared.event.Ask.{Ask};
ghost use Rattle.qc_event.specs.History.{refused};
ghost use Rattle.qc_event.specs.Requests.{is_fault, was_unable};
ghost use Rattle.qc_event.specs.Tables.{setting_of};
ghost use Rattle.qc_net.specs.Courier.{IsAnswered};
ghost use Rattle.qc_desk.specs.Known.{IsKnown};
ghost use Rattle.qc_desk.specs.Own.{IsOwnAccess};
ghost use Rattle.qc_desk.specs.Rules.{IsClient};
ghost use Rattle.qc_desk.specs.Answers.{HasAnswered};
ghost use Rattle.qc_carry.specs.Access.{Ends, Waits};
ghost use Rattle.qc_carry.specs.Kept.{TellsSent, ToldNoLoss, WasGivenUp};

use crate::calls::{give_up, miss, orphaned, stopped};
use qc_desk::{Desk, Pass, Store};
use qc_event::{Answered, Ask, Refusal, Tuple, Why};
use qc_managers::{Carried, CarryNo};
use qc_net::Sent;
use std::sync::Wait;

// An access takes the reply that was granted, unless it is dead.
fn take<R: Wait, N: Store>(
    rt: &R,
    desk: &Desk<N>,
    pass: &mut Pass<N>,
    ask: &Ask,
    tuple: &Tuple,
) -> Result<Carried, CarryNo>
    requires client { IsClient pass.old }
    requires waits { Waits pass.old.seen pass.old.number ask.now }
    requires granted { HasAnswered ask.now.copy pass.old.seen ask.now
        (answered.Granted tuple.now) }
    ensures ends { Ends pass.old pass.new ask.now result }
    ensures neither { ToldNoLoss result }
    ensures known { IsKnown (setting_of N.table N.base) pass.new }
{
    let taken = desk.take_reply(rt, pass, &ask.access, tuple);
    match taken {
        Ok(()) => Ok(Carried::Reply(*tuple)),
        Err(no) => Err(stopped(rt, desk, pass, &ask.access, &no)),
    }
}

// An access that was refused is aborted: its manager is told who was in its way first, or it ends as an orphan.
fn refuse<R: Wait, N: Store>(
    rt: &R,
    desk: &Desk<N>,
    pass: &mut Pass<N>,
    ask: &Ask,
    first: &Refusal,
) -> Result<Carried, CarryNo>
    requires client { IsClient pass.old }
    requires own { IsOwnAccess pass.old.seen pass.old.number ask.now.access }
    requires known { IsKnown (setting_of N.table N.base) pass.old }
    requires first { refused pass.old.seen ask.now.access ≡ Some first.now }
    ensures ends { Ends pass.old pass.new ask.now result }
    ensures neither { ToldNoLoss result }
    ensures known { IsKnown (setting_of N.table N.base) pass.new }
{
    match first {
        Refusal::Blocked(holder) => {
            miss(rt, desk, pass, &ask.access)?;
            Ok(Carried::Blocked(*holder))
        }
        Refusal::Dead(ancestor) => Err(orphaned(rt, desk, pass, &ask.access, ancestor)),
    }
}

// An access that was refused ends by its first refusal.
fn end_refused<R: Wait, N: Store>(
    rt: &R,
    desk: &Desk<N>,
    pass: &mut Pass<N>,
    ask: &Ask,
) -> Result<Carried, CarryNo>
    requires client { IsClient pass.old }
    requires waits { Waits pass.old.seen pass.old.number ask.now }
    requires refused { is_some (refused pass.old.seen ask.now.access) ≡ true }
    ensures ends { Ends pass.old pass.new ask.now result }
    ensures neither { ToldNoLoss result }
    ensures known { IsKnown (setting_of N.table N.base) pass.new }
{
    let first = desk.refusal(rt, pass, &ask.access);
    match first {
        Some(first) => refuse(rt, desk, pass, ask, &first),
        None => unreachable!(),
    }
}

// An access that got no answer is given up, and aborted.
fn lose<R: Wait, N: Store>(
    rt: &R,
    desk: &Desk<N>,
    pass: &mut Pass<N>,
    ask: &Ask,
    why: Why,
) -> Result<Carried, CarryNo>
    requires client { IsClient pass.old }
    requires waits { Waits pass.old.seen pass.old.number ask.now }
    requires told { IsTrue (not (is_fault why) || was_unable pass.old.seen ask.now.access why) }
    ensures ends { Ends pass.old pass.new ask.now result }
    ensures gone { WasGivenUp why result }
    ensures known { IsKnown (setting_of N.table N.base) pass.new }
{
    give_up(rt, desk, pass, ask, why)?;
    miss(rt, desk, pass, &ask.access)?;
    Ok(Carried::Gone(why))
}

// An access ends by its copy's answer.
fn answer<R: Wait, N: Store>(
    rt: &R,
    desk: &Desk<N>,
    pass: &mut Pass<N>,
    ask: &Ask,
    answered: &Answered,
) -> Result<Carried, CarryNo>
    requires client { IsClient pass.old }
    requires waits { Waits pass.old.seen pass.old.number ask.now }
    requires came { HasAnswered ask.now.copy pass.old.seen ask.now answered.now }
    ensures ends { Ends pass.old pass.new ask.now result }
    ensures neither { ToldNoLoss result }
    ensures known { IsKnown (setting_of N.table N.base) pass.new }
{
    match answered {
        Answered::Granted(tuple) => take(rt, desk, pass, ask, tuple),
        Answered::Blocked(_) => end_refused(rt, desk, pass, ask),
        Answered::Dead(_) => end_refused(rt, desk, pass, ask),
        Answered::Down => lose(rt, desk, pass, ask, Why::Down),
        Answered::Full => lose(rt, desk, pass, ask, Why::Full),
        Answered::Strange => lose(rt, desk, pass, ask, Why::Strange),
    }
}

/// An access that waits ends by what came back: it takes the reply, or is aborted.
pub(crate) fn finish<R: Wait, N: Store>(
    rt: &R,
    desk: &Desk<N>,
    pass: &mut Pass<N>,
    ask: &Ask,
    sent: &Sent,
) -> Result<Carried, CarryNo>
    requires client { IsClient pass.old }
    requires waits { Waits pass.old.seen pass.old.number ask.now }
    requires came { IsAnswered (λ (a : Ask). HasAnswered a.copy pass.old.seen a) ask.now sent.now }
    ensures ends { Ends pass.old pass.new ask.now result }
    ensures tells { TellsSent sent.now result }
    ensures known { IsKnown (setting_of N.table N.base) pass.new }
{
    match sent {
        Sent::Answer(answered) => answer(rt, desk, pass, ask, answered),
        Sent::Lost => lose(rt, desk, pass, ask, Why::Lost),
        Sent::Late => lose(rt, desk, pass, ask, Why::Late),
    }
}
