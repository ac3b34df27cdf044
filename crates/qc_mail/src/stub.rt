//! A copy's server's end of its queue.
ghost use Rattle.std.specs.Prelude.{◌≡◌, length};
ghost use Rattle.crossbeam_queue.specs.Passes.{view};

use crate::letter::Letter;
use crate::mail::Mail;
use crate::serve::Serve;
use crate::server::work;
use qc_desk::Store;
use qc_lane::{Mailed, Outlet, Posted};
use std::sync::Wait;

/// A copy's server's end of its queue.
#[derive(Drop)]
pub struct Stub<N: Store, M: Mailed>
where
    Letter<N>: Posted,
{
    pub outlet: Outlet<Letter<N>, M>,
}

impl<N: Store, M: Mailed> Stub<N, M> {
    /// Serves the requests in its copy's queue, each reply to its session's, until it takes the word to stop.
    pub fn work<B: Serve<N>, R: Wait>(&mut self, rt: &R, mail: &Mail<N, M>, to: &B)
        ensures same { self.new.outlet.copy ≡ self.old.outlet.copy }
    {
        let tray = mail.tray(self.outlet.copy);
        work(rt, &mut self.outlet, tray, mail.replies.as_slice(), to);
    }

    /// How many requests it took.
    pub fn taken(&self) -> u64
        ensures { result ≡ length (view self.now.outlet.pass).got }
    {
        self.outlet.taken
    }
}
