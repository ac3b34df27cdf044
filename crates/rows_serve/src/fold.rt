//! How the copy's journal is folded.
ghost use Rattle.std.specs.Prelude.{◌≡◌};
ghost use Rattle.std.specs.Bool.{OnTrue};
ghost use Rattle.qc_event.specs.Standing.{HasEnded};
ghost use Rattle.qc_desk.specs.Calling.{Shown, SeesMore};
ghost use Rattle.qc_desk.specs.Rules.{IsClient};
ghost use Rattle.rows_serve.specs.Requests.{Knows};
ghost use Rattle.rows_serve.specs.TwoRecords.{IsOver};

use crate::client::Client;
use crate::folds::{Folds, Ready};
use crate::served::Served;
use crate::words::Tools;
use qc_desk::{Desk, Pass, Store};
use rows_kit::said;
use std::alloc::AllocError;
use std::mem;
use std::sync::Wait;

// Whether each top has ended.
fn has_ended<N: Store, R: Wait>(rt: &R, desk: &Desk<N>, pass: &mut Pass<N>) -> bool
    ensures ended { OnTrue result (HasEnded pass.new.seen) }
    ensures looked { Shown pass.old pass.new }
{
    desk.settled(rt, pass)
}

// Folds what the copy holds, where that may be called.
fn checkpoint<N: Store, R: Wait>(
    tools: &Tools<'_, R>,
    desk: &Desk<N>,
    pass: &mut Pass<N>,
    served: &mut Served<N>,
) -> Result<String, AllocError>
    requires over { IsOver N.table N.base }
    requires ended { HasEnded pass.old.seen }
    ensures sees { SeesMore pass.old pass.new }
{
    let mut fold = match mem::replace(&mut served.folds, Folds::NoSpare) {
        Folds::NoSpare => return said(tools.alloc, "no spare"),
        Folds::Ready(ready) => ready.fold,
        Folds::Refused(fold) => {
            served.folds = Folds::Refused(fold);
            return said(tools.alloc, "it was refused before");
        }
    };
    match served.site.checkpoint(tools.rt, desk, pass, &mut fold) {
        Ok(()) => {
            served.folds = Folds::Ready(Ready { fold });
            said(tools.alloc, "folded")
        }
        Err(no) => {
            served.folds = Folds::Refused(fold);
            no.to_string(tools.alloc)
        }
    }
}

/// Folds what the copy holds into the other journal, where each top has ended.
pub(crate) fn fold<N: Store, R: Wait>(
    tools: &Tools<'_, R>,
    desk: &Desk<N>,
    pass: &mut Pass<N>,
    served: &mut Served<N>,
    client: &Client,
) -> Result<String, AllocError>
    requires client { IsClient pass.old }
    requires over { IsOver N.table N.base }
    requires knows { Knows pass.old.seen pass.old.number client.now }
    ensures same { (pass.new.live ≡ pass.old.live) × (pass.new.number ≡ pass.old.number)
        × (pass.new.out ≡ pass.old.out) }
    ensures knows { Knows pass.new.seen pass.old.number client.entry.now }
{
    let _ = client;
    let ended = has_ended(tools.rt, desk, pass);
    pass.known();
    if !ended {
        return said(tools.alloc, "a top is open");
    }
    let answer = checkpoint(tools, desk, pass, served);
    pass.known();
    answer
}
