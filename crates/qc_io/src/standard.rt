//! The readers and writers of the standard library as streams, which tell nothing.
ghost use Rattle.std.specs.Prelude.{◌≡◌, ◌<◌, length, take, if◌then◌else◌, IfOk, OnErr, IsErr, is_err, None};
ghost use Rattle.std.specs.Io.KnownBytes.{ReadConsumes, Appends};
ghost use Rattle.qc_io.specs.Io.{HasCause, Keeps, Reads, Writes, next};

use super::{Failed, Sink, Source};
use std::io::{Read, Write};

/// A reader as a source. Each error of the reader is a fault, an interrupted read too.
#[derive(Drop)]
pub struct StdSource<R> {
    inner: R,
    faults: u64,
}

impl<R: Read> StdSource<R> {
    /// A source that reads from here, and has not failed.
    pub fn new(inner: R) -> Self
        ensures inner { result.inner ≡ inner }
        ensures faults { result.faults ≡ 0 }
    {
        StdSource { inner, faults: 0 }
    }
}

impl<R: Read> Source for StdSource<R> {
    ghost view = { λ source. record { left = None; faults = source.faults } };

    fn read(&mut self, into: &mut [u8]) -> Result<usize, Failed>
        requires { 0 < length into.old }
        ensures reads { IfOk result (Reads None None into.new) }
        ensures failed { OnErr result (Keeps None None) }
        ensures cause { HasCause self.old.faults self.new.faults (IsErr result) }
        ensures counted { self.new.faults
            ≡ (if is_err result then next self.old.faults else self.old.faults) }
        ensures inner { ReadConsumes (R.remaining self.old.inner) (R.remaining self.new.inner)
            result into.new }
    {
        match self.inner.read(into) {
            Ok(count) => Ok(count),
            Err(_) => {
                self.faults = self.faults.saturating_add(1);
                Err(Failed)
            }
        }
    }
}

/// A writer as a sink. Each error of the writer is a fault, and so is a write that takes nothing.
/// A write flushes the writer, so that one which answered `Ok` has handed the bytes on.
#[derive(Drop)]
pub struct StdSink<W> {
    inner: W,
    faults: u64,
}

impl<W: Write> StdSink<W> {
    /// A sink that writes to here, and has not failed.
    pub fn new(inner: W) -> Self
        ensures inner { result.inner ≡ inner }
        ensures faults { result.faults ≡ 0 }
    {
        StdSink { inner, faults: 0 }
    }
}

impl<W: Write> Sink for StdSink<W> {
    ghost view = { λ sink. record { taken = None; faults = sink.faults } };

    fn write(&mut self, bytes: &[u8]) -> Result<usize, Failed>
        requires { 0 < length bytes.now }
        ensures writes { IfOk result (Writes None None bytes.now) }
        ensures failed { OnErr result (Keeps None None) }
        ensures cause { HasCause self.old.faults self.new.faults (IsErr result) }
        ensures counted { self.new.faults
            ≡ (if is_err result then next self.old.faults else self.old.faults) }
        ensures inner { IfOk result (λ n. Appends (W.contents self.old.inner)
            (W.contents self.new.inner) (take n bytes.now)) }
    {
        if let Ok(count) = self.inner.write(bytes)
            && count > 0
            && self.inner.flush().is_ok()
        {
            return Ok(count);
        }
        self.faults = self.faults.saturating_add(1);
        Err(Failed)
    }
}
