//! How many tops there were, and whether any is in doubt.
ghost use Rattle.std.specs.Prelude.{◌≡◌, ◌++◌, ◌∷◌, [], List, OnOk};
ghost use Rattle.qc_event.specs.declared.event.Entry.{Entry};
ghost use Rattle.qc_event.specs.declared.event.Event.{Event};
ghost use Rattle.qc_report.specs.Counts.{TallyHasRoom, counts, tally_text};
ghost use Rattle.qc_report.specs.Report as spec;
ghost use Rattle.qc_trail.specs.Outline.{outline_of};

use crate::history::History;
use crate::page::Page;
use qc_event::{Name, Outcome};
use qc_trail::Outline;
use std::alloc::AllocError;

/// Whether a transaction has not ended.
fn is_live(outcome: Outcome) -> bool
    ensures { result ≡ spec.is_live outcome }
{
    match outcome {
        Outcome::Live => true,
        Outcome::Committed | Outcome::Aborted => false,
    }
}

/// Whether an entry of this is a top that was ready and has not ended.
pub(crate) fn in_doubt(history: &History<'_>, outline: &Outline) -> bool
    ensures { (event : Event) → outline.now ≡ outline_of event
        → result ≡ spec.in_doubt history.now event }
{
    match outline {
        Outline::Ready { top } => is_live(history.outcome(top)),
        _ => false,
    }
}

fn is_top(name: &Name) -> bool
    ensures { result ≡ spec.is_top name.now }
{
    name.len() == 1
}

fn starts_top(outline: &Outline) -> bool
    ensures { (event : Event) → outline.now ≡ outline_of event → result ≡ spec.starts_top event }
{
    match outline {
        Outline::Start { name } => is_top(name),
        Outline::StartAccess { name } => is_top(name),
        _ => false,
    }
}

fn commits_top(outline: &Outline) -> bool
    ensures { (event : Event) → outline.now ≡ outline_of event → result ≡ spec.commits_top event }
{
    match outline {
        Outline::Commit { name } => is_top(name),
        _ => false,
    }
}

fn aborts_top(outline: &Outline) -> bool
    ensures { (event : Event) → outline.now ≡ outline_of event → result ≡ spec.aborts_top event }
{
    match outline {
        Outline::Abort { name } => is_top(name),
        _ => false,
    }
}

/// Whether any top was ready and has not ended.
pub fn has_doubt(history: &History<'_>) -> bool
    ensures { result ≡ spec.has_doubt history.now }
{
    let trail = history.trail();
    let mut doubt = false;
    for at in 0..trail.len() {
        doubt |= in_doubt(history, &trail.outline(at));
    }
    doubt
}

/// How many tops were started, committed and aborted, and how many are in doubt.
#[derive(Clone, Copy)]
pub(crate) struct Tally {
    started: usize,
    committed: usize,
    aborted: usize,
    doubt: usize,
}

impl Tally {
    /// The counts of no entries.
    pub(crate) fn none() -> Self
        ensures { (trail : List Entry) → result ≡ counts trail [] }
    {
        Tally {
            started: 0,
            committed: 0,
            aborted: 0,
            doubt: 0,
        }
    }

    /// Counts an entry of this, of which it is known whether it is a top in doubt.
    pub(crate) fn count(&mut self, outline: &Outline, is_doubt: bool)
        requires { TallyHasRoom self.old }
        ensures { (trail before : List Entry) (entry : Entry)
            → outline.now ≡ outline_of entry.event → is_doubt ≡ spec.in_doubt trail entry.event
            → self.old ≡ counts trail before → self.new ≡ counts trail (before ++ entry ∷ []) }
    {
        self.started += usize::from(starts_top(outline));
        self.committed += usize::from(commits_top(outline));
        self.aborted += usize::from(aborts_top(outline));
        self.doubt += usize::from(is_doubt);
    }

    /// The counts of a history.
    pub(crate) fn of(history: &History<'_>) -> Self
        ensures { result ≡ counts history.now history.now }
    {
        let trail = history.trail();
        let mut tally = Tally::none();
        for at in 0..trail.len() {
            let outline = trail.outline(at);
            tally.count(&outline, in_doubt(history, &outline));
        }
        tally
    }

    /// Appends the line of the counts.
    pub(crate) fn push(self, page: &mut Page) -> Result<(), AllocError>
        ensures { OnOk result (page.new ≡ page.old ++ tally_text self) }
    {
        let Tally {
            started,
            committed,
            aborted,
            doubt,
        } = self;
        write!(
            page,
            "tops {started} committed {committed} aborted {aborted} doubt {doubt}\n"
        )
    }
}
