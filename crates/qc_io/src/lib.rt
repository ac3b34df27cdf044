//! Streams of bytes that may tell what they hold, and that count their faults.
#![tactic(auto)]

ghost use Rattle.std.specs.Prelude.{◌<◌, length, IfOk, OnErr, IsErr};
ghost use Rattle.qc_io.specs.Io.{SourceView, SinkView, HasCause, Keeps, Reads, Writes};

mod memory;
mod standard;
mod whole;

pub use memory::{MemSink, MemSource};
pub use standard::{StdSink, StdSource};
use thiserror::Error;
pub use whole::{Untaken, take_all, write_all};

/// A stream did not do what it was asked. Its count of faults says that it was the stream.
#[derive(Clone, Copy, PartialEq, Eq, Debug, Error)]
#[error("the stream failed")]
pub struct Failed;

/// Where bytes come from.
pub trait Source {
    /// What is left to be read, where the source tells, and its faults.
    ghost view: { Self → SourceView };

    /// Reads at least one byte into the front of a buffer, and says how many. It reads none only at
    /// the end.
    fn read(&mut self, into: &mut [u8]) -> Result<usize, Failed>
        requires { 0 < length into.old }
        ensures reads { IfOk result (Reads (view self.old).left (view self.new).left into.new) }
        ensures failed { OnErr result (Keeps (view self.old).left (view self.new).left) }
        ensures cause { HasCause (view self.old).faults (view self.new).faults (IsErr result) };
}

/// Where bytes go.
pub trait Sink {
    /// What the sink has taken, where it tells, and its faults.
    ghost view: { Self → SinkView };

    /// Takes at least one byte from the front of a piece, and says how many.
    fn write(&mut self, bytes: &[u8]) -> Result<usize, Failed>
        requires { 0 < length bytes.now }
        ensures writes { IfOk result (Writes (view self.old).taken (view self.new).taken
            bytes.now) }
        ensures failed { OnErr result (Keeps (view self.old).taken (view self.new).taken) }
        ensures cause { HasCause (view self.old).faults (view self.new).faults (IsErr result) };
}
