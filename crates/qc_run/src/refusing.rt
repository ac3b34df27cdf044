//! Runs that are refused before a session begins.
ghost use Rattle.std.specs.Prelude.{ℕ, ◌≡◌, List, []};
ghost use Rattle.qc_io.specs.Io.{SinkView};
ghost use Rattle.qc_opening.specs.Refusing.{disks_in};
ghost use Rattle.qc_run.specs.Left as left;
ghost use Rattle.qc_run.specs.Run as terms;

use crate::io::{Sink, write_all};
use crate::ran::Ran;
use crate::status::{Status, fault_line};
use qc_event::Base;
use qc_opening::MountNo;
use qc_trail::Trail;
use std::alloc::{AllocError, Global};

/// A run that began nothing. Want of memory is told nowhere.
pub(crate) fn nothing<D: Drop>(alloc: Global, status: Status, disks: Vec<D>) -> Ran<D>
    ensures status { result.status ≡ status }
    ensures none { terms.NoneBegun result.start result.trail }
    ensures disks { result.disks ≡ disks }
    ensures memory { (sink : SinkView) → status ≡ Status.Memory
        → left.IsRefusedRun sink sink result }
    ensures early { (sink : SinkView) → status ≡ Status.Memory → disks.items ≡ []
        → left.IsEarly sink sink result }
{
    Ran {
        status,
        start: Base::new(Vec::new(alloc)),
        trail: Trail::new(alloc),
        disks,
    }
}

/// Writes the line of a fault, and answers it; or that there was no memory for the line.
pub(crate) fn tell<K: Sink>(alloc: Global, status: Status, sink: &mut K) -> Status
    requires { terms.IsTold status }
    ensures answer { terms.IsOrMemory status result }
    ensures wrote { (text : List ℕ)
        → left.Wrote (K.view sink.old) (K.view sink.new) result text }
{
    match fault_line(alloc, &status) {
        Ok(line) => {
            let _ = write_all(sink, line.as_slice());
            status
        }
        Err(AllocError) => Status::Memory,
    }
}

/// Refuses to run, and tells why.
pub(crate) fn refuse<K: Sink, D: Drop>(
    alloc: Global,
    status: Status,
    disks: Vec<D>,
    sink: &mut K,
) -> Ran<D>
    requires { terms.IsTold status }
    ensures answer { terms.IsOrMemory status result.status }
    ensures refusal { left.IsRefusedRun (K.view sink.old) (K.view sink.new) result }
    ensures early { disks.items ≡ []
        → left.IsEarly (K.view sink.old) (K.view sink.new) result }
    ensures disks { result.disks ≡ disks }
{
    let status = tell(alloc, status, sink);
    nothing(alloc, status, disks)
}

/// Tells why no store was mounted.
pub(crate) fn unmounted<K: Sink, D: Drop>(
    alloc: Global,
    refused: MountNo<D>,
    sink: &mut K,
) -> Ran<D>
    ensures answer { left.IsStatusOf refused result.status }
    ensures refusal { left.IsRefusedRun (K.view sink.old) (K.view sink.new) result }
    ensures disks { result.disks.items ≡ disks_in refused }
{
    match refused {
        MountNo::Disk { which, disks } => { refuse(alloc, Status::DiskFault(which), disks, sink) }
        MountNo::Image { fault, disks } => refuse(alloc, Status::Image(fault), disks, sink),
        MountNo::Memory { disks } => nothing(alloc, Status::Memory, disks),
    }
}
