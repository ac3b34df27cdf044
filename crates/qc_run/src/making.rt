//! Runs of a script that is made of a number.
ghost use Rattle.std.specs.Prelude.{◌≤◌};
ghost use Rattle.qc_script.specs.MadePlan.{made_plan};
ghost use Rattle.qc_run.specs.Left as left;

use crate::finishing::Form;
use crate::io::Sink;
use crate::performing::perform;
use crate::ran::Ran;
use crate::refusing::nothing;
use crate::spelling::made_is_spelled;
use crate::status::Status;
use qc_disk::Shop;
use qc_gate::Gate;
use qc_interp::Mode;
use qc_script::Script;
use std::alloc::{AllocError, Global};
use std::sync::Wait;
use std::thread::Threads;

/// Runs the script that is made of a number, its sessions one after another, over the disks of the empty place, and
/// writes the summary.
pub(crate) fn make<R: Threads + Wait + Sync, K: Sink, H: Shop, G: Gate + Sync>(
    rt: &R,
    alloc: Global,
    number: u64,
    sink: &mut K,
    shop: &mut H,
    gate: &G,
) -> Ran<H::D>
where
    H::D: Drop + Send,
    ensures answer { left.IsAnswerToMaking H.D.view H.view (made_plan number) shop.old shop.new
        (K.view sink.old) (K.view sink.new) result }
    ensures shop_faults { (H.view shop.old).faults ≤ (H.view shop.new).faults }
{
    match Script::made(alloc, number) {
        Ok(script) => {
            made_is_spelled(&script);
            let mode = Mode::Serial;
            perform(
                rt,
                alloc,
                "",
                &script,
                sink,
                shop,
                gate,
                mode,
                Form::Summary,
            )
        }
        Err(AllocError) => nothing(alloc, Status::Memory, Vec::new(alloc)),
    }
}
