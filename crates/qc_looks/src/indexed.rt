//! Looks by an index.
ghost use Rattle.std.specs.Prelude.{◌≡◌, ◌<◌, [], ◌∷◌, IfOk, OnOk, length};
ghost use Rattle.qc_event.specs.Base.{IsProper, Setting};
ghost use Rattle.qc_event.specs.History.{limit};
ghost use Rattle.qc_event.specs.Legal.{Legal};
ghost use Rattle.qc_history.specs.Index.{IsOf};
ghost use Rattle.qc_looks.specs.Indexed.{AreKept, CanFollow};

use crate::asks::Asks;
use crate::names::{begun, children, children_ended, is_child_aborted};
use crate::requests::Requests;
use crate::tables::Tables;
use qc_event::{Ask, Base, Cause, Config, Entry, How, Name, Refusal, Short, Tuple, Why};
use qc_history::{History, Index};
use qc_scan::{Begun, Given, Looks, Request};
use std::alloc::{AllocError, Global};
use std::marker::Model;

/// A legal history from a proper setting, with an index of all that is looked up. Contracts see the setting and the
/// history, its latest entry first. Whatever its length, a look takes a step for each number of a name, and those at
/// children and at locks one for each that is there.
#[derive(Debug, Drop)]
pub struct Indexed<'a> {
    base: &'a Base,
    firsts: &'a [Config],
    history: History,
    requests: Requests,
    asks: Asks,
    tables: Tables,
}

impl<'a> Model for Indexed<'a> {
    ghost use Rattle.qc_event.specs.Base.{IsProper, Setting};
    ghost use Rattle.qc_event.specs.Legal.{Legal};
    ghost use Rattle.qc_looks.specs.Asks.{AreAsks};
    ghost use Rattle.qc_looks.specs.Indexed.{Known, AreKept};
    ghost use Rattle.qc_looks.specs.Requests.{AreRequests};
    ghost use Rattle.qc_looks.specs.Tables.{AreTables};

    ghost Value = { Known };

    ghost view = { λ i. record {
      setting = record { firsts = i.firsts.now; base = i.base.now };
      past = i.history;
    } };

    ghost invariant = { λ i. AreKept (record { firsts = i.firsts.now; base = i.base.now })
        i.history i.requests i.asks i.tables };
}

// Takes in an entry that may come next. After an error they are no more of one history.
fn take_in(
    history: &mut History,
    requests: &mut Requests,
    asks: &mut Asks,
    tables: &mut Tables,
    entry: &Entry,
) -> Result<(), AllocError>
    requires follows { CanFollow history.old requests.old asks.old tables.old entry.now }
    requires room { length history.old < limit }
    ensures history { OnOk result (history.new ≡ entry.now ∷ history.old) }
    ensures kept { OnOk result ((setting : Setting) →
        AreKept setting history.old requests.old asks.old tables.old →
        Legal setting (entry.now ∷ history.old) →
        AreKept setting (entry.now ∷ history.old) requests.new asks.new tables.new) }
{
    let at = history.len() as u32;
    requests.make_room(entry, history.names())?;
    match history.push(entry) {
        Ok(()) => {}
        Err(Short::Memory | Short::Room) => return Err(AllocError),
    }
    requests.push(entry, history.names(), at);
    asks.push(entry, history.names(), at)?;
    tables.push(entry)
}

impl<'a> Indexed<'a> {
    /// No entries.
    pub fn new(alloc: Global, base: &'a Base, firsts: &'a [Config]) -> Result<Self, AllocError>
        requires { IsProper (record { firsts = firsts.now; base = base.now }) }
        ensures { IfOk result (λ i. i ≡ record {
          setting = record { firsts = firsts.now; base = base.now };
          past = [];
        }) }
    {
        Ok(Indexed {
            base,
            firsts,
            history: History::new(alloc),
            requests: Requests::new(alloc),
            asks: Asks::new(alloc),
            tables: Tables::new(alloc, base)?,
        })
    }

    /// The index of the names.
    pub fn names(&self) -> &Index
        ensures { IsOf result.now self.now.past }
    {
        self.history.names()
    }

    /// Takes in an entry that may come next.
    pub fn push(self, entry: &Entry) -> Result<Self, AllocError>
        requires legal { Legal self.setting (entry.now ∷ self.past) }
        requires room { length self.past < limit }
        ensures { IfOk result (λ i.
            i ≡ record { setting = self.entry.setting; past = entry.now ∷ self.entry.past }) }
    {
        let Indexed {
            base,
            firsts,
            mut history,
            mut requests,
            mut asks,
            mut tables,
        } = self;
        take_in(&mut history, &mut requests, &mut asks, &mut tables, entry)?;
        Ok(Indexed {
            base,
            firsts,
            history,
            requests,
            asks,
            tables,
        })
    }
}

impl<'a> Looks for Indexed<'a> {
    ghost past = { λ i. i.past };

    ghost setting = { λ i. i.setting };

    fn start(&self, n: &Name) -> Option<Begun> {
        begun(&self.history, n)
    }

    fn end(&self, n: &Name) -> Option<How> {
        self.history.end(n)
    }

    fn is_ready(&self, n: &Name) -> bool {
        self.history.is_ready(n)
    }

    fn dead(&self, n: &Name) -> Option<Name> {
        self.history.dead(n)
    }

    fn children(&self, n: &Name) -> usize {
        children(&self.history, n)
    }

    fn children_ended(&self, n: &Name) -> bool {
        children_ended(&self.history, n)
    }

    fn is_child_aborted(&self, n: &Name, cause: &Cause) -> bool {
        is_child_aborted(&self.history, n, cause)
    }

    fn is_marked(&self, session: u8, number: u64) -> bool {
        self.history.beside().marked(session, &Name::top(number))
    }

    fn asked(&self, access: &Name) -> Option<Request> {
        let entries = self.history.entries();
        self.requests.asked(self.history.names(), entries, access)
    }

    fn gone(&self, access: &Name) -> Option<Why> {
        let entries = self.history.entries();
        self.requests.gone(self.history.names(), entries, access)
    }

    fn granted(&self, access: &Name) -> Option<Given> {
        let entries = self.history.entries();
        self.requests.granted(self.history.names(), entries, access)
    }

    fn refused(&self, access: &Name) -> Option<Refusal> {
        self.history.refusal(access)
    }

    fn was_unable(&self, n: &Name, why: Why) -> bool {
        let entries = self.history.entries();
        self.requests
            .was_unable(self.history.names(), entries, n, why)
    }

    fn asks(&self, m: &Name) -> usize {
        self.asks.count(self.history.names(), m)
    }

    fn ask(&self, m: &Name, k: usize) -> Ask {
        let entries = self.history.entries();
        self.asks.ask(self.history.names(), entries, m, k)
    }

    fn holder(&mut self, ask: &Ask) -> Option<Name> {
        self.tables.holder(&self.history, ask)
    }

    fn held(&mut self, ask: &Ask) -> Tuple {
        self.tables.held(&self.history, ask)
    }
}
