//! Opening a pair.
ghost use Rattle.std.specs.Prelude.{ℕ, ◌≡◌, ◌≤◌, ◌+◌, List, IfOk, IfErr, OnOk, IsSome, IsErrAnd, if◌then◌else◌};
ghost use Rattle.qc_codec.specs.Base.{active, is_swapped};
ghost use Rattle.qc_disk.specs.Disk.{CountsOnce, HasCause, LeavesOnly, Grows};
ghost use Rattle.qc_journal.specs.Device.{LeftOrAlike};
ghost use Rattle.qc_journal.specs.Image.{HasAt, bodies_of};
ghost use Rattle.qc_journal.specs.Journal.{limit_of, IsUp};
ghost use Rattle.qc_pair.specs.Front.{base_form, number_in};
ghost use Rattle.qc_pair.specs.Opening.{own_after, spare_after, IsChoiceNo, MountsDisk, IsPairRefusal, OpensPair, TellWhich};
ghost use Rattle.qc_pair.specs.Pair.{active_of, other_of};

use crate::fault::{PairNo, grammar_no, mount_no};
use crate::front::front_of;
use crate::kind::Kind;
use crate::pair::Pair;
use qc_disk::Disk;
use qc_journal::{Body, Journal};
use std::alloc::Global;

// Whether the spare's bodies are active, and the number of the base of those that are.
fn choose(
    alloc: Global,
    who: u8,
    kind: Kind,
    own: &[Body],
    spare: &[Body],
) -> Result<(bool, u64), PairNo>
    requires { who ≤ 16 }
    ensures tell { OnOk result (TellWhich kind who (bodies_of own.now) (bodies_of spare.now)) }
    ensures swapped { IfOk result (λ choice. choice.0
        ≡ is_swapped (base_form kind) (bodies_of own.now) (bodies_of spare.now)) }
    ensures number { IfOk result (λ choice. choice.1
        ≡ number_in kind (active (base_form kind) (bodies_of own.now) (bodies_of spare.now))) }
    ensures refused { IfErr result (IsChoiceNo kind who (bodies_of own.now)
        (bodies_of spare.now)) }
{
    let own_number = front_of(alloc, who, kind, own)?;
    let spare_number = front_of(alloc, who + 17, kind, spare)?;
    if own_number == spare_number && own_number > 0 {
        return Err(grammar_no(who + 17, 1));
    }
    if own_number < spare_number {
        Ok((true, spare_number))
    } else {
        Ok((false, own_number))
    }
}

// The bodies that are active.
fn pick(is_swapped: bool, own: Vec<Body>, spare: Vec<Body>) -> Vec<Body>
    ensures { result ≡ if is_swapped then spare else own }
{
    if is_swapped { spare } else { own }
}

// Mounts both and chooses. What it leaves of each and costs it is said in one.
fn mount_both<D: Disk>(
    alloc: Global,
    disk: D,
    spare: D,
    who: u8,
    kind: Kind,
    limit: u64,
) -> Result<(Pair<D>, Vec<Body>), (D, D, PairNo)>
    requires { who ≤ 16 }
    ensures up { IfOk result (λ opened. IsUp (active_of opened.0) × IsUp (other_of opened.0)) }
    ensures limit { IfOk result (λ opened. (limit_of (active_of opened.0) ≡ limit)
        × (limit_of (other_of opened.0) ≡ limit)) }
    ensures opens { IfOk result (λ opened. OpensPair kind who (D.view disk).content
        (D.view spare).content opened.0 (bodies_of opened.1.items)) }
    ensures refused { IfErr result (λ refused. IsPairRefusal kind who (D.view disk).content
        (D.view spare).content refused.2) }
    ensures own { MountsDisk D.view
        (IsErrAnd result (λ refused. refused.2 ≡ PairNo.Disk who)) disk (own_after result) }
    ensures spare { MountsDisk D.view
        (IsErrAnd result (λ refused. refused.2 ≡ PairNo.Disk (who + 17)))
        spare (spare_after result) }
{
    let (own, own_bodies) = match Journal::mount(alloc, disk, limit) {
        Ok(mounted) => mounted,
        Err((disk, fault)) => return Err((disk, spare, mount_no(who, fault))),
    };
    let (spare, spare_bodies) = match Journal::mount(alloc, spare, limit) {
        Ok(mounted) => mounted,
        Err((spare, fault)) => return Err((own.into_disk(), spare, mount_no(who + 17, fault))),
    };
    match choose(alloc, who, kind, &own_bodies, &spare_bodies) {
        Ok((is_swapped, number)) => {
            let bodies = pick(is_swapped, own_bodies, spare_bodies);
            Ok((Pair::new(own, spare, number, is_swapped), bodies))
        }
        Err(no) => Err((own.into_disk(), spare.into_disk(), no)),
    }
}

/// Mounts the journals of a disk, whose number this is, and of its spare, and tells the bodies of the active one: that
/// whose base has the greater number, the disk's own where neither has a base. A refusal hands both disks back.
pub fn open<D: Disk>(
    alloc: Global,
    disk: D,
    spare: D,
    who: u8,
    kind: Kind,
    limit: u64,
) -> Result<(Pair<D>, Vec<Body>), (D, D, PairNo)>
    requires { who ≤ 16 }
    ensures up { IfOk result (λ opened. IsUp (active_of opened.0) × IsUp (other_of opened.0)) }
    ensures limit { IfOk result (λ opened. (limit_of (active_of opened.0) ≡ limit)
        × (limit_of (other_of opened.0) ≡ limit)) }

    // Where the disks tell their bytes, they have the records of which these are active, and from now on each image has.
    ensures opens { IfOk result (λ opened. OpensPair kind who (D.view disk).content
        (D.view spare).content opened.0 (bodies_of opened.1.items)) }

    // It is refused for the first fault of the images, where the disks tell their bytes.
    ensures refused { IfErr result (λ refused. IsPairRefusal kind who (D.view disk).content
        (D.view spare).content refused.2) }

    // What it leaves of the disk at each moment, and what it costs it.
    ensures any_moment { LeavesOnly D.view disk (own_after result)
        (LeftOrAlike (D.view disk).may_leave (D.view disk).content) }
    ensures grows { IsSome (D.view disk).content → (index : ℕ) (body : List ℕ)
        → Grows D.view disk (own_after result) (HasAt index body) }
    ensures cause { HasCause (D.view disk).faults (D.view (own_after result)).faults
        (IsErrAnd result (λ refused. refused.2 ≡ PairNo.Disk who)) }
    ensures counts_once { CountsOnce (D.view disk).faults (D.view (own_after result)).faults
        (IsErrAnd result (λ refused. refused.2 ≡ PairNo.Disk who)) }

    // The same of the spare.
    ensures any_moment_of_spare { LeavesOnly D.view spare (spare_after result)
        (LeftOrAlike (D.view spare).may_leave (D.view spare).content) }
    ensures grows_of_spare { IsSome (D.view spare).content → (index : ℕ) (body : List ℕ)
        → Grows D.view spare (spare_after result) (HasAt index body) }
    ensures cause_of_spare { HasCause (D.view spare).faults (D.view (spare_after result)).faults
        (IsErrAnd result (λ refused. refused.2 ≡ PairNo.Disk (who + 17))) }
    ensures counts_once_of_spare { CountsOnce (D.view spare).faults
        (D.view (spare_after result)).faults
        (IsErrAnd result (λ refused. refused.2 ≡ PairNo.Disk (who + 17))) }
{
    mount_both(alloc, disk, spare, who, kind, limit)
}
