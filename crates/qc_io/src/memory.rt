//! Streams in memory, which tell their bytes and fail at the calls that they are told to.
ghost use Rattle.std.specs.Prelude.{◌≡◌, ◌<◌, ◌≤◌, ◌↔◌, [], length, min, take, IsTrue, IfOk, OnErr, IsErr, is_err, Some};

use super::{Failed, Sink, Source};
use std::alloc::{AllocError, Global};

/// Which calls of a stream fail, counted from 1, and how many calls and failures there were.
#[derive(Drop)]
struct Schedule {
    fails: Vec<u64>,
    calls: u64,
    faults: u64,
}

impl Schedule {
    ghost use Rattle.qc_io.specs.Io.{HasCause, FailsNext, fresh, failed, after};

    fn new(fails: Vec<u64>) -> Self
        ensures { result ≡ fresh fails }
    {
        Schedule {
            fails,
            calls: 0,
            faults: 0,
        }
    }

    /// Counts a call, and says whether it is one that fails.
    fn fails_now(&mut self) -> bool
        ensures answer { IsTrue result ↔ FailsNext self.old }
        ensures after { self.new ≡ after result self.old }
        ensures cause { HasCause self.old.faults self.new.faults (IsTrue result) }
    {
        self.calls = self.calls.saturating_add(1);
        let fails = self.fails.contains(&self.calls);
        if fails {
            self.count_fault();
        }
        fails
    }

    fn count_fault(&mut self)
        ensures after { self.new ≡ failed self.old }
        ensures cause { HasCause self.old.faults self.new.faults (Unit {0}) }
    {
        self.faults = self.faults.saturating_add(1);
    }
}

// Copies as many bytes as both have, and says how many.
fn copy_front(from: &[u8], into: &mut [u8]) -> usize
    ensures count { result ≡ min (length from.now) (length into.old) }
    ensures copied { take result into.new ≡ take result from.now }
{
    let count = from.len().min(into.len());
    into[..count].copy_from_slice(&from[..count]);
    count
}

/// Bytes in memory to be read. A call that the list names fails, counts, and does nothing else.
#[derive(Drop)]
pub struct MemSource {
    bytes: Vec<u8>,
    at: usize,
    schedule: Schedule,
    ghost within: { at ≤ length bytes.items },
}

impl MemSource {
    ghost use Rattle.qc_io.specs.Io.{fresh, source_left, source_schedule};

    /// A source of these bytes, which fails at the listed calls, counted from 1.
    pub fn new(bytes: Vec<u8>, fails: Vec<u64>) -> Self
        ensures left { source_left result ≡ bytes.items }
        ensures schedule { source_schedule result ≡ fresh fails }
    {
        MemSource {
            bytes,
            at: 0,
            schedule: Schedule::new(fails),
        }
    }
}

impl Source for MemSource {
    ghost use Rattle.qc_io.specs.Io.{HasCause, Keeps, Reads, FailsNext, after, source_left, source_schedule};

    ghost view = { λ source. record {
      left = Some (source_left source);
      faults = (source_schedule source).faults;
    } };

    fn read(&mut self, into: &mut [u8]) -> Result<usize, Failed>
        requires { 0 < length into.old }
        ensures reads { IfOk result
            (Reads (Some (source_left self.old)) (Some (source_left self.new)) into.new) }
        ensures failed { OnErr result
            (Keeps (Some (source_left self.old)) (Some (source_left self.new))) }
        ensures cause { HasCause (source_schedule self.old).faults (source_schedule self.new).faults
            (IsErr result) }
        ensures listed { IsErr result ↔ FailsNext (source_schedule self.old) }
        ensures counted { source_schedule self.new
            ≡ after (is_err result) (source_schedule self.old) }
        ensures whole { IfOk result
            (λ n. n ≡ min (length (source_left self.old)) (length into.new)) }
    {
        if self.schedule.fails_now() {
            return Err(Failed);
        }
        let count = copy_front(&self.bytes[self.at..], into);
        self.at += count;
        Ok(count)
    }
}

/// Bytes in memory that were written. A call that the list names fails, counts, and does nothing
/// else. A write that gets no memory is a fault of the sink too, since a stream has no other answer.
#[derive(Drop)]
pub struct MemSink {
    bytes: Vec<u8>,
    schedule: Schedule,
}

impl MemSink {
    ghost use Rattle.qc_io.specs.Io.{fresh, sink_taken, sink_schedule};

    /// A sink that has taken nothing, and fails at the listed calls, counted from 1.
    pub fn new(alloc: Global, fails: Vec<u64>) -> Self
        ensures taken { sink_taken result ≡ [] }
        ensures schedule { sink_schedule result ≡ fresh fails }
    {
        MemSink {
            bytes: Vec::new(alloc),
            schedule: Schedule::new(fails),
        }
    }

    /// What it has taken, in order.
    pub fn bytes(&self) -> &[u8]
        ensures { result.now ≡ sink_taken self.now }
    {
        &self.bytes
    }
}

impl Sink for MemSink {
    ghost use Rattle.qc_io.specs.Io.{HasCause, Keeps, Writes, FailsNext, after, sink_taken, sink_schedule};

    ghost view = { λ sink. record {
      taken = Some (sink_taken sink);
      faults = (sink_schedule sink).faults;
    } };

    fn write(&mut self, bytes: &[u8]) -> Result<usize, Failed>
        requires { 0 < length bytes.now }
        ensures writes { IfOk result
            (Writes (Some (sink_taken self.old)) (Some (sink_taken self.new)) bytes.now) }
        ensures failed { OnErr result
            (Keeps (Some (sink_taken self.old)) (Some (sink_taken self.new))) }
        ensures cause { HasCause (sink_schedule self.old).faults (sink_schedule self.new).faults
            (IsErr result) }
        ensures listed { FailsNext (sink_schedule self.old) → IsErr result }
        ensures counted { sink_schedule self.new ≡ after (is_err result) (sink_schedule self.old) }
        ensures whole { IfOk result (λ n. n ≡ length bytes.now) }
    {
        if self.schedule.fails_now() {
            return Err(Failed);
        }
        match self.bytes.extend_from_slice(bytes) {
            Ok(()) => Ok(bytes.len()),
            Err(AllocError) => {
                self.schedule.count_fault();
                Err(Failed)
            }
        }
    }
}
