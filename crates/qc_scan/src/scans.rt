//! Looks that go over the entries. None of them takes memory.
use crate::held::held;
use crate::lists::{children, count_asks, nth_ask, open_child};
use crate::looks::Looks;
use crate::scan::{Begun, Given, Request, asked, end, gone, granted, is_ready, refused, start};
use crate::setting::Setting;
use crate::told::{is_child_aborted, is_marked, was_unable};
use qc_event::{Ask, Cause, Entry, How, Name, Refusal, Tuple, Why, dead, holder};

/// From what a history starts, and its entries, the oldest first. Each look goes over these.
#[derive(Debug, Drop)]
pub struct Scans<'a> {
    pub setting: &'a Setting<'a>,
    pub entries: &'a [Entry],
}

impl<'a> Looks for Scans<'a> {
    ghost use Rattle.std.specs.Prelude.{reverse};

    ghost past = { λ s. reverse s.entries.now };

    ghost setting = { λ s. s.setting.now };

    fn start(&self, n: &Name) -> Option<Begun> {
        start(self.entries, n)
    }

    fn end(&self, n: &Name) -> Option<How> {
        end(self.entries, n)
    }

    fn is_ready(&self, n: &Name) -> bool {
        is_ready(self.entries, n)
    }

    fn dead(&self, n: &Name) -> Option<Name> {
        dead(self.entries, n)
    }

    fn children(&self, n: &Name) -> usize {
        children(self.entries, n)
    }

    fn children_ended(&self, n: &Name) -> bool {
        open_child(self.entries, n).is_none()
    }

    fn is_child_aborted(&self, n: &Name, cause: &Cause) -> bool {
        is_child_aborted(self.entries, n, cause)
    }

    fn is_marked(&self, session: u8, number: u64) -> bool {
        is_marked(self.entries, session, number)
    }

    fn asked(&self, access: &Name) -> Option<Request> {
        asked(self.entries, access)
    }

    fn gone(&self, access: &Name) -> Option<Why> {
        gone(self.entries, access)
    }

    fn granted(&self, access: &Name) -> Option<Given> {
        granted(self.entries, access)
    }

    fn refused(&self, access: &Name) -> Option<Refusal> {
        refused(self.entries, access)
    }

    fn was_unable(&self, n: &Name, why: Why) -> bool {
        was_unable(self.entries, n, why)
    }

    fn asks(&self, m: &Name) -> usize {
        count_asks(self.entries, m)
    }

    fn ask(&self, m: &Name, k: usize) -> Ask {
        match nth_ask(self.entries, m, k) {
            Some(ask) => ask,
            None => unreachable!(),
        }
    }

    fn holder(&mut self, ask: &Ask) -> Option<Name> {
        holder(self.entries, ask.copy, ask.rec, &ask.op, &ask.access)
    }

    fn held(&mut self, ask: &Ask) -> Tuple {
        held(self.setting, self.entries, ask.copy, ask.rec)
    }
}
