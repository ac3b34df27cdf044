//! What an offer's note is shown.
ghost use Rattle.std.specs.Prelude.{◌≡◌, is_some};
ghost use Rattle.qc_event.specs.History.{end};
ghost use Rattle.qc_group.specs.Offers.{IsLater};

use crate::waiting::Waiting;
use qc_desk::{Desk, Store};
use std::sync::Wait;

impl<N: Store> Waiting<N> {
    // It is shown the history, and whether its top has ended there.
    pub(crate) fn look<R: Wait>(self, rt: &R, desk: &Desk<N>) -> (Waiting<N>, bool)
        ensures later { IsLater self result.0 }
        ensures ended { result.1 ≡ is_some (end result.0.pass.seen result.0.top) }
    {
        let Waiting {
            top,
            aborted,
            mut pass,
            ..
        } = self;
        let ended = desk.ended(rt, &mut pass, &top).is_some();
        let shown = Waiting { top, aborted, pass };
        (shown, ended)
    }
}
