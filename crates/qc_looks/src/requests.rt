//! What is looked up of requests.
ghost use Rattle.std.specs.Prelude.{◌≡◌, ◌<◌, [], ◌∷◌, OnOk, length, reverse};
ghost use Rattle.qc_event.specs.Base.{Setting};
ghost use Rattle.qc_event.specs.History as words;
ghost use Rattle.qc_event.specs.History.{Past, limit};
ghost use Rattle.qc_event.specs.Legal.{Legal};
ghost use Rattle.qc_event.specs.Requests as requests_words;
ghost use Rattle.qc_history.specs.Index.{IsOf};
ghost use Rattle.qc_history.specs.Standing.{OfEach};
ghost use Rattle.qc_looks.specs.Requests.{AreRequests, RequestsHaveRoom, OfEntries};

use crate::subjects::{asked_name, gone_name, granted_name, unable_name};
use qc_event::{Entry, Name, Why};
use qc_history::{Firsts, Index};
use qc_scan::{Given, Request, ask_in, gone_in, grant_in};
use qc_trail::Trail;
use std::alloc::{AllocError, Global};

/// What accesses asked and were granted, why they were given up, and who could not be served, each by the first entry that tells it.
#[derive(Debug, Drop)]
pub struct Requests {
    asked: Firsts,
    gone: Firsts,
    granted: Firsts,
    down: Firsts,
    full: Firsts,
    strange: Firsts,
}

impl Requests {
    /// Those of no entries. It takes no memory.
    pub fn new(alloc: Global) -> Self
        ensures { AreRequests result [] }
    {
        Requests {
            asked: Firsts::new(alloc),
            gone: Firsts::new(alloc),
            granted: Firsts::new(alloc),
            down: Firsts::new(alloc),
            full: Firsts::new(alloc),
            strange: Firsts::new(alloc),
        }
    }

    /// Makes room for an entry that may come next. The index of names does not have it yet.
    pub fn make_room(&mut self, entry: &Entry, names: &Index) -> Result<(), AllocError>
        ensures same { OnOk result
            ((past : Past) → AreRequests self.old past → AreRequests self.new past) }
        ensures room { OnOk result
            (OfEach (IsOf names.now) (λ past. RequestsHaveRoom entry.now past self.new)) }
    {
        self.asked.make_room(asked_name(entry), names)?;
        self.gone.make_room(gone_name(entry), names)?;
        self.granted.make_room(granted_name(entry), names)?;
        self.down.make_room(unable_name(entry, Why::Down), names)?;
        self.full.make_room(unable_name(entry, Why::Full), names)?;
        self.strange
            .make_room(unable_name(entry, Why::Strange), names)
    }

    /// Takes in an entry that may come next, for which room was made, at its place. The index of names has it.
    pub fn push(&mut self, entry: &Entry, names: &Index, at: u32)
        requires at { at < limit }
        ensures { (setting : Setting) → (past : Past) → AreRequests self.old past →
            RequestsHaveRoom entry.now past self.old → IsOf names.now (entry.now ∷ past) →
            Legal setting (entry.now ∷ past) → at ≡ length past →
            AreRequests self.new (entry.now ∷ past) }
    {
        self.asked.push(asked_name(entry), names, at);
        self.gone.push(gone_name(entry), names, at);
        self.granted.push(granted_name(entry), names, at);
        self.down.push(unable_name(entry, Why::Down), names, at);
        self.full.push(unable_name(entry, Why::Full), names, at);
        self.strange
            .push(unable_name(entry, Why::Strange), names, at);
    }

    /// The request of an access.
    pub fn asked(&self, names: &Index, entries: &Trail, access: &Name) -> Option<Request>
        ensures { OfEntries self.now names.now (reverse entries.now)
            (λ past. result ≡ words.asked past access.now) }
    {
        match self.asked.first(names, entries, access) {
            Some(entry) => ask_in(&entry, access),
            None => None,
        }
    }

    /// Why an access first got no answer.
    pub fn gone(&self, names: &Index, entries: &Trail, access: &Name) -> Option<Why>
        ensures { OfEntries self.now names.now (reverse entries.now)
            (λ past. result ≡ words.gone past access.now) }
    {
        match self.gone.first(names, entries, access) {
            Some(entry) => gone_in(&entry, access),
            None => None,
        }
    }

    /// The grant of an access.
    pub fn granted(&self, names: &Index, entries: &Trail, access: &Name) -> Option<Given>
        ensures { OfEntries self.now names.now (reverse entries.now)
            (λ past. result ≡ words.granted past access.now) }
    {
        match self.granted.first(names, entries, access) {
            Some(entry) => grant_in(&entry, access),
            None => None,
        }
    }

    /// Whether an entry tells that a name could not be served, for this reason.
    pub fn was_unable(&self, names: &Index, entries: &Trail, n: &Name, why: Why) -> bool
        ensures { OfEntries self.now names.now (reverse entries.now)
            (λ past. result ≡ requests_words.was_unable past n.now why) }
    {
        match why {
            Why::Down => self.down.first(names, entries, n).is_some(),
            Why::Full => self.full.first(names, entries, n).is_some(),
            Why::Strange => self.strange.first(names, entries, n).is_some(),
            Why::Lost | Why::Late => false,
        }
    }
}
