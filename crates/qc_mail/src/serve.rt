//! What serves requests.
ghost use Rattle.std.specs.Prelude.{◌≡◌, ◌<◌, IfOk, IsErrOf, length};
ghost use Rattle.qc_event.specs.declared.short.Short.TheVariants.{Room};
ghost use Rattle.qc_event.specs.History.{limit};
ghost use Rattle.qc_event.specs.Tables.{setting_of};
ghost use Rattle.qc_desk.specs.Calling.{SeesMore};
ghost use Rattle.qc_mail.specs.Serving.{HasAnswered};
ghost use Rattle.qc_desk.specs.Consulting.{HasAsked};
ghost use Rattle.qc_desk.specs.Known.{IsKnown};

use qc_desk::{Pass, Store};
use qc_event::{Answered, Ask, Short};
use std::sync::Wait;

/// Serves requests to the copies of a store, for all threads.
pub trait Serve<N: Store> {
    /// Its copy serves a request that the seer saw. The seer has then seen what the answer rests on.
    fn serve<R: Wait>(&self, rt: &R, seer: &mut Pass<N>, ask: &Ask) -> Result<Answered, Short>
        requires copy { ask.now.copy < length N.base }
        requires asked { HasAsked seer.old.seen ask.now }
        ensures answered { IfOk result (HasAnswered ask.now.copy seer.new.seen ask.now) }
        ensures room { IsErrOf result Room → length seer.new.seen ≡ limit }
        ensures seer { SeesMore seer.old seer.new }
        ensures known { IsKnown (setting_of N.table N.base) seer.new };
}
