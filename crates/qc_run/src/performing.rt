//! Runs of a script that is there.
ghost use Rattle.std.specs.Prelude.{◌≤◌};
ghost use Rattle.qc_codec.specs.Bodies as body;
ghost use Rattle.qc_codec.specs.Fields.{current_format};
ghost use Rattle.qc_script.specs.Reading.{IsProper};
ghost use Rattle.qc_script.specs.Steps.{plan_of_script};
ghost use Rattle.qc_run.specs.Left as left;

use crate::finishing::{Form, finish};
use crate::io::Sink;
use crate::ran::Ran;
use crate::refusing::unmounted;
use qc_disk::Shop;
use qc_gate::Gate;
use qc_interp::Mode;
use qc_opening::run_stored;
use qc_script::Script;
use qc_session::Ended;
use std::alloc::Global;
use std::sync::Wait;
use std::thread::Threads;

/// The most bytes of a journal.
const JOURNAL_LIMIT: u64 = 1 << 40;

/// Runs a proper script over the disks of a place, and writes of it in this form.
pub(crate) fn perform<R: Threads + Wait + Sync, K: Sink, H: Shop, G: Gate + Sync>(
    rt: &R,
    alloc: Global,
    place: &str,
    script: &Script,
    sink: &mut K,
    shop: &mut H,
    gate: &G,
    mode: Mode,
    form: Form,
) -> Ran<H::D>
where
    H::D: Drop + Send,
    requires proper { IsProper (plan_of_script script.now) }
    requires spelled { (body.table current_format).fits script.now.table }
    ensures answer { left.IsAnswer H.D.view (plan_of_script script.now)
        (H.view shop.old) place.now form (H.view shop.new)
        (K.view sink.old) (K.view sink.new) result }
    ensures shop_faults { (H.view shop.old).faults ≤ (H.view shop.new).faults }
{
    match run_stored(rt, alloc, shop, place, script, JOURNAL_LIMIT, gate, mode) {
        Ok(stored) => {
            let Ended {
                ran,
                start,
                trail,
                disks,
            } = stored.ended;
            let status = finish(alloc, form, &script.table, ran, &start, &trail, sink);
            Ran {
                status,
                start,
                trail,
                disks,
            }
        }
        Err(refused) => unmounted(alloc, refused, sink),
    }
}
