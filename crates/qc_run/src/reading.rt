//! Runs of a script that the source holds.
ghost use Rattle.std.specs.Prelude.{◌≤◌, IfOk, IfErr};
ghost use Rattle.qc_io.specs.Io.{Drops, LosesWithin};
ghost use Rattle.qc_run.specs.Left as left;
ghost use Rattle.qc_run.specs.Run as terms;
ghost use Rattle.qc_script.specs.Reading.{IsProper, ScriptIsRefused, IsScript};
ghost use Rattle.qc_script.specs.Steps.{plan_of_script};

use crate::finishing::Form;
use crate::io::{Sink, Source, Untaken, take_all};
use crate::performing::perform;
use crate::ran::Ran;
use crate::refusing::{nothing, refuse};
use crate::spelling::is_spelled;
use crate::status::Status;
use qc_disk::Shop;
use qc_gate::Gate;
use qc_interp::Mode;
use qc_script::{BadScript, MOST_BYTES, Script};
use std::alloc::Global;
use std::sync::Wait;
use std::thread::Threads;

// The script that the bytes are, which are let go of then.
fn script_of(alloc: Global, bytes: Vec<u8>) -> Result<Script, BadScript>
    ensures found { IfOk result (λ s. IsScript bytes.items (plan_of_script s)) }
    ensures refused { IfErr result (λ e. ScriptIsRefused bytes.items e) }
    ensures proper { IfOk result (λ s. IsProper (plan_of_script s)) }
{
    Script::read(alloc, bytes.as_slice())
}

// Runs the script that the bytes are over the disks of a place, or refuses them.
fn over<R: Threads + Wait + Sync, K: Sink, H: Shop, G: Gate + Sync>(
    rt: &R,
    alloc: Global,
    place: &str,
    bytes: Vec<u8>,
    sink: &mut K,
    shop: &mut H,
    gate: &G,
    mode: Mode,
    form: Form,
) -> Ran<H::D>
where
    H::D: Drop + Send,
    ensures answer { left.IsAnswerToBytes H.D.view H.view form bytes.items shop.old place.now
        shop.new (K.view sink.old) (K.view sink.new) result }
    ensures shop_faults { (H.view shop.old).faults ≤ (H.view shop.new).faults }
{
    match script_of(alloc, bytes) {
        Ok(script) => {
            is_spelled(&script);
            perform(rt, alloc, place, &script, sink, shop, gate, mode, form)
        }
        Err(BadScript::Memory) => nothing(alloc, Status::Memory, Vec::new(alloc)),
        Err(bad) => refuse(alloc, Status::Script(bad), Vec::new(alloc), sink),
    }
}

/// Reads a script from the source, runs it over the disks of a place, and writes of it in this form.
pub(crate) fn read<R: Threads + Wait + Sync, S: Source, K: Sink, H: Shop, G: Gate + Sync>(
    rt: &R,
    alloc: Global,
    place: &str,
    mode: Mode,
    form: Form,
    source: &mut S,
    sink: &mut K,
    shop: &mut H,
    gate: &G,
) -> Ran<H::D>
where
    H::D: Drop + Send,
    ensures answer { left.IsAnswerToSource H.D.view H.view form (S.view source.old)
        (S.view source.new) shop.old place.now shop.new (K.view sink.old) (K.view sink.new)
        result }
    ensures source_faults { (S.view source.old).faults ≤ (S.view source.new).faults }
    ensures source_taken { terms.ReadWhole result.status
        → Drops (S.view source.old).left (S.view source.new).left terms.most_taken }
    ensures source_within { LosesWithin (S.view source.old).left (S.view source.new).left
        terms.most_taken }
    ensures shop_faults { (H.view shop.old).faults ≤ (H.view shop.new).faults }
{
    match take_all(alloc, source, MOST_BYTES) {
        Ok(bytes) => over(rt, alloc, place, bytes, sink, shop, gate, mode, form),
        Err(Untaken::Failed) => refuse(alloc, Status::ReadFault, Vec::new(alloc), sink),
        Err(Untaken::Memory) => nothing(alloc, Status::Memory, Vec::new(alloc)),
    }
}
