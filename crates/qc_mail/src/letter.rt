//! What goes through the queues.
ghost use Rattle.std.specs.Prelude.{◌≡◌, ◌<◌, IfOk, IfSome, IsErrOf, None, Some, length};
ghost use Rattle.qc_mail.specs.Letters.{IsSeen};
ghost use Rattle.qc_event.specs.declared.short.Short.TheVariants.{Room};
ghost use Rattle.qc_event.specs.History.{limit};
ghost use Rattle.qc_mail.specs.Once.{once};
ghost use Rattle.qc_mail.specs.Serving.{HasAnswered};
ghost use Rattle.qc_desk.specs.Consulting.{HasAsked};

use qc_desk::{Pass, Store};
use qc_event::{Answered, Ask, Short};
use qc_lane::{Mailed, Posted, Receipt, Request};
use std::marker::Model;

/// What is put into a copy's queue: a request, and a note that has seen it; or nothing, which is the word to stop.
#[derive(Drop)]
pub struct Letter<N: Store> {
    request: Option<Request>,
    note: Option<Pass<N>>,
}

impl<N: Store> Model for Letter<N> {
    ghost use Rattle.std.specs.Prelude.{option_map, length};
    ghost use Rattle.qc_mail.specs.Letters.{Written, IsWritten};

    ghost Value = { Written };

    ghost view = { λ l. record { request = l.request; seen = option_map (λ p. p.seen) l.note } };

    ghost invariant = { λ l. IsWritten (length N.base)
        (record { request = l.request; seen = option_map (λ p. p.seen) l.note }) };
}

impl<N: Store> Letter<N> {
    /// A request that a note has seen.
    pub fn of(request: Request, note: Pass<N>) -> Self
        requires asked { HasAsked note.seen request.ask }
        requires small { request.ask.copy < length N.base }
        ensures { result.request ≡ Some request }
    {
        Letter {
            request: Some(request),
            note: Some(note),
        }
    }

    /// The word to stop.
    pub fn stop() -> Self
        ensures { result.request ≡ None }
    {
        Letter {
            request: None,
            note: None,
        }
    }

    /// The request and the note.
    pub fn open(self) -> Option<(Request, Pass<N>)>
        ensures none { result ≡ None → self.request ≡ None }
        ensures some { IfSome result (λ job. (self.request ≡ Some job.0)
            × IsSeen (length N.base) job.0 job.1.seen) }
    {
        let Letter { request, note } = self;
        let Some(request) = request else {
            return None;
        };
        let Some(note) = note else {
            return None;
        };
        Some((request, note))
    }
}

impl<N: Store> Posted for Letter<N> {
    ghost use Rattle.std.specs.Prelude.{option_to_list};

    ghost requests = { λ letter. option_to_list letter.request };

    fn request(&self) -> Option<Request> {
        self.request
    }
}

/// The answer to a request, and a note that has seen what it rests on.
#[derive(Drop)]
pub struct Served<N: Store> {
    pub ask: Ask,
    pub answer: Result<Answered, Short>,
    pub note: Pass<N>,
    ghost asked: { HasAsked note.seen ask },
    ghost answered: { IfOk answer (HasAnswered ask.copy note.seen ask) } by { once ask.copy note.seen ask answer },
    ghost room: { IsErrOf answer Room → length note.seen ≡ limit },
}

/// What was served, and that the request was taken.
#[derive(Drop)]
pub struct Reply<N: Store, M: Mailed>
where
    Letter<N>: Posted,
{
    pub receipt: Receipt<Letter<N>, M>,
    pub served: Served<N>,
}
