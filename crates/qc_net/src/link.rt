//! What may become of a request on its way.
ghost use Rattle.std.specs.Prelude.{◌≡◌, ◌<◌, option_map, IfSome, IfOk};
ghost use Rattle.qc_net.specs.Plan as words;
ghost use Rattle.qc_net.specs.Plan.{LinkView, Counts, next_fate, asked, due_in, passed, anew};

use std::alloc::AllocError;

/// What becomes of a request.
#[derive(Clone, Copy, PartialEq, Eq, Debug)]
pub enum Fate {
    /// It is delivered, and its answer comes back.
    Deliver,
    /// It is lost on its way.
    LoseAsk,
    /// It is delivered, and its answer is lost.
    LoseReply,
    /// It is held, and delivered later.
    Hold,
    /// It is delivered two times, and the first answer comes back.
    Twice,
}

impl Fate {
    /// Whether the link counts it as a trouble: the request, or its answer, is lost or held.
    pub fn is_trouble(self) -> bool
        ensures { result ≡ words.is_trouble self }
    {
        match self {
            Fate::LoseAsk | Fate::LoseReply | Fate::Hold => true,
            Fate::Deliver | Fate::Twice => false,
        }
    }
}

/// Says what becomes of requests, and when those that are held are delivered.
pub trait Link: Sized {
    /// Its troubles so far, and its plan from here on, where it tells one.
    ghost view: { Self → LinkView };

    /// What becomes of the next request, which goes to this copy.
    fn fate(&mut self, to: u8) -> Fate
        ensures told { IfSome (view self.old).plan (λ p. result ≡ next_fate p.coming) }
        ensures plan { (view self.new).plan ≡ option_map asked (view self.old).plan }
        ensures counts { Counts result (view self.old).troubles (view self.new).troubles };

    /// The place of the held request that is delivered now, of `held`, if one is.
    fn due(&mut self, held: usize) -> Option<usize>
        ensures within { IfSome result (λ place. place < held) }
        ensures told { IfSome (view self.old).plan (λ p. result ≡ due_in p held) }
        ensures plan { (view self.new).plan ≡ option_map passed (view self.old).plan }
        ensures counts { (view self.new).troubles ≡ (view self.old).troubles };

    /// A link with the same fates and hold from the start on, which gave no trouble yet. The only error is
    /// want of memory.
    fn fresh(&self) -> Result<Self, AllocError>
        ensures plan { IfOk result (λ link. (view link).plan ≡ option_map anew
            (view self.now).plan) }
        ensures counts { IfOk result (λ link. (view link).troubles ≡ 0) };
}
